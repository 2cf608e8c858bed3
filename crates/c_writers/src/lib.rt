// The calls from C that write a line into a lent output from a place on.
#![tactic(auto)]

ghost use Rattle.c_given_write.specs.Written.{SaidWritten};
ghost use Rattle.c_writers.specs.Values.{fix_from, head_of, point_of};
ghost use Rattle.c_writers.specs.Calls.{kind_written, kind_text, WriteFixAnswered, WriteExtraAnswered, WriteLayoutAnswered, WriteHeadAnswered, WritePointAnswered};

use c_answers::SIZE;
use rules::{Date, Family, Reason, Refusal};

mod values;

// A B line of a fix, into an output from a place on.
pub fn fix(
    seconds: u32,
    seconds_decimals: u8,
    latitude: u64,
    n_or_s: u8,
    latitude_decimals: u8,
    longitude: u64,
    e_or_w: u8,
    longitude_decimals: u8,
    validity: u8,
    pressure: i32,
    gnss: i32,
    columns: &[u8],
    layout: &[u8],
    place: usize,
    out: &mut [u8],
    answer: &mut [u64],
) -> u32
    ensures { WriteFixAnswered (fix_from seconds seconds_decimals latitude n_or_s latitude_decimals longitude e_or_w longitude_decimals validity pressure gnss) columns.now layout.now place out.old answer.old result out.new answer.new }
{
    if answer.len() != SIZE {
        return 17;
    }
    let f = values::fix_from(
        seconds,
        seconds_decimals,
        latitude,
        n_or_s,
        latitude_decimals,
        longitude,
        e_or_w,
        longitude_decimals,
        validity,
        pressure,
        gnss,
    );
    let wrote = c_given_write::fix(f, columns, layout, out, place);
    c_answers::give(answer, c_answers::count(wrote))
}

// A K or an N line, by its letter. BAD_VALUE for any other letter.
fn put_extra(
    kind: u8,
    seconds: u32,
    columns: &[u8],
    layout: &[u8],
    out: &mut [u8],
    place: usize,
) -> Result<usize, Refusal>
    ensures { SaidWritten (kind_written kind seconds columns.now layout.now place out.old) (kind_text kind seconds columns.now) place out.old result out.new }
{
    let Some(f) = layout_family::family(&[kind]) else {
        return Err(Refusal {
            reason: Reason::BadValue,
            line: 0,
            byte: 0,
        });
    };
    let Family::Extra(which) = f else {
        return Err(Refusal {
            reason: Reason::BadValue,
            line: 0,
            byte: 0,
        });
    };
    c_given_write::extra(which, seconds, columns, layout, out, place)
}

// A K or an N line of a time, by its letter, into an output from a place on.
pub fn extra(
    kind: u8,
    seconds: u32,
    columns: &[u8],
    layout: &[u8],
    place: usize,
    out: &mut [u8],
    answer: &mut [u64],
) -> u32
    ensures { WriteExtraAnswered kind seconds columns.now layout.now place out.old answer.old result out.new answer.new }
{
    if answer.len() != SIZE {
        return 17;
    }
    let wrote = put_extra(kind, seconds, columns, layout, out, place);
    c_answers::give(answer, c_answers::count(wrote))
}

// An I, a J or an M line, into an output from a place on.
pub fn layout(layout: &[u8], place: usize, out: &mut [u8], answer: &mut [u64]) -> u32
    ensures { WriteLayoutAnswered layout.now place out.old answer.old result out.new answer.new }
{
    if answer.len() != SIZE {
        return 17;
    }
    let wrote = c_given_write::layout(layout, out, place);
    c_answers::give(answer, c_answers::count(wrote))
}

// The head of a declaration, into an output from a place on.
pub fn head(
    day: u8,
    month: u8,
    year: u16,
    seconds: u32,
    flight_day: u8,
    flight_month: u8,
    flight_year: u16,
    task: u16,
    turn_points: u8,
    text: &[u8],
    place: usize,
    out: &mut [u8],
    answer: &mut [u64],
) -> u32
    ensures { WriteHeadAnswered (head_of (record { day = day; month = month; year = year }) seconds (record { day = flight_day; month = flight_month; year = flight_year }) task turn_points) text.now place out.old answer.old result out.new answer.new }
{
    if answer.len() != SIZE {
        return 17;
    }
    let declared = Date { day, month, year };
    let flight = Date {
        day: flight_day,
        month: flight_month,
        year: flight_year,
    };
    let h = values::head_of(declared, seconds, flight, task, turn_points);
    let wrote = write_line::head(h, text, out, place);
    c_answers::give(answer, c_answers::count(wrote))
}

// A point of a declaration, into an output from a place on.
pub fn point(
    latitude: u64,
    n_or_s: u8,
    longitude: u64,
    e_or_w: u8,
    text: &[u8],
    place: usize,
    out: &mut [u8],
    answer: &mut [u64],
) -> u32
    ensures { WritePointAnswered (point_of latitude n_or_s longitude e_or_w) text.now place out.old answer.old result out.new answer.new }
{
    if answer.len() != SIZE {
        return 17;
    }
    let p = values::point_of(latitude, n_or_s, longitude, e_or_w);
    let wrote = write_line::point(p, text, out, place);
    c_answers::give(answer, c_answers::count(wrote))
}
