// Lines written into a lent output from a place on.
ghost use Rattle.c_writers.specs.Values.{fix_from, head_of, point_of};
ghost use Rattle.c_writers.specs.Calls.{WriteFixAnswered, WriteExtraAnswered, WriteLayoutAnswered, WriteHeadAnswered, WritePointAnswered};

// A B line of a fix.
#[unsafe(no_mangle)]
pub extern "C" fn hive_write_fix(
    seconds: u32,
    seconds_decimals: u8,
    latitude: u64,
    n_or_s: u8,
    latitude_decimals: u8,
    longitude: u64,
    e_or_w: u8,
    longitude_decimals: u8,
    validity: u8,
    pressure: i32,
    gnss: i32,
    columns: &[u8],
    layout: &[u8],
    place: usize,
    out: &mut [u8],
    answer: &mut [u64],
) -> u32
    ensures { WriteFixAnswered (fix_from seconds seconds_decimals latitude n_or_s latitude_decimals longitude e_or_w longitude_decimals validity pressure gnss) columns.now layout.now place out.old answer.old result out.new answer.new }
{
    c_writers::fix(
        seconds,
        seconds_decimals,
        latitude,
        n_or_s,
        latitude_decimals,
        longitude,
        e_or_w,
        longitude_decimals,
        validity,
        pressure,
        gnss,
        columns,
        layout,
        place,
        out,
        answer,
    )
}

// A K or an N line of a time, by its letter.
#[unsafe(no_mangle)]
pub extern "C" fn hive_write_extra(
    kind: u8,
    seconds: u32,
    columns: &[u8],
    layout: &[u8],
    place: usize,
    out: &mut [u8],
    answer: &mut [u64],
) -> u32
    ensures { WriteExtraAnswered kind seconds columns.now layout.now place out.old answer.old result out.new answer.new }
{
    c_writers::extra(kind, seconds, columns, layout, place, out, answer)
}

// An I, a J or an M line.
#[unsafe(no_mangle)]
pub extern "C" fn hive_write_layout(
    layout: &[u8],
    place: usize,
    out: &mut [u8],
    answer: &mut [u64],
) -> u32
    ensures { WriteLayoutAnswered layout.now place out.old answer.old result out.new answer.new }
{
    c_writers::layout(layout, place, out, answer)
}

// The head of a declaration.
#[unsafe(no_mangle)]
pub extern "C" fn hive_write_head(
    day: u8,
    month: u8,
    year: u16,
    seconds: u32,
    flight_day: u8,
    flight_month: u8,
    flight_year: u16,
    task: u16,
    turn_points: u8,
    text: &[u8],
    place: usize,
    out: &mut [u8],
    answer: &mut [u64],
) -> u32
    ensures { WriteHeadAnswered (head_of (record { day = day; month = month; year = year }) seconds (record { day = flight_day; month = flight_month; year = flight_year }) task turn_points) text.now place out.old answer.old result out.new answer.new }
{
    c_writers::head(
        day,
        month,
        year,
        seconds,
        flight_day,
        flight_month,
        flight_year,
        task,
        turn_points,
        text,
        place,
        out,
        answer,
    )
}

// A point of a declaration.
#[unsafe(no_mangle)]
pub extern "C" fn hive_write_point(
    latitude: u64,
    n_or_s: u8,
    longitude: u64,
    e_or_w: u8,
    text: &[u8],
    place: usize,
    out: &mut [u8],
    answer: &mut [u64],
) -> u32
    ensures { WritePointAnswered (point_of latitude n_or_s longitude e_or_w) text.now place out.old answer.old result out.new answer.new }
{
    c_writers::point(
        latitude, n_or_s, longitude, e_or_w, text, place, out, answer,
    )
}
