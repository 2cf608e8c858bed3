// Lines that have no layout, the date line, E and F lines, a declaration's head and points; and a position for the map.
ghost use Rattle.c_lines.specs.Calls.{DateAnswered, EventAnswered, SatellitesAnswered, HeadAnswered, PointAnswered, DegreesAnswered};
ghost use Rattle.c_lines.specs.Headers.{HeaderAnswered};

// The date of a file's second line.
#[unsafe(no_mangle)]
pub extern "C" fn hive_date(line: &[u8], answer: &mut [u64]) -> u32
    ensures { DateAnswered line.now answer.old result answer.new }
{
    c_lines::date(line, answer)
}

// The time of an E line.
#[unsafe(no_mangle)]
pub extern "C" fn hive_event(line: &[u8], answer: &mut [u64]) -> u32
    ensures { EventAnswered line.now answer.old result answer.new }
{
    c_lines::event(line, answer)
}

// The time of an F line.
#[unsafe(no_mangle)]
pub extern "C" fn hive_satellites(line: &[u8], answer: &mut [u64]) -> u32
    ensures { SatellitesAnswered line.now answer.old result answer.new }
{
    c_lines::satellites(line, answer)
}

// The head of a declaration.
#[unsafe(no_mangle)]
pub extern "C" fn hive_head(line: &[u8], answer: &mut [u64]) -> u32
    ensures { HeadAnswered line.now answer.old result answer.new }
{
    c_lines::head(line, answer)
}

// A point of a declaration.
#[unsafe(no_mangle)]
pub extern "C" fn hive_point(line: &[u8], answer: &mut [u64]) -> u32
    ensures { PointAnswered line.now answer.old result answer.new }
{
    c_lines::point(line, answer)
}

// An H line taken apart.
#[unsafe(no_mangle)]
pub extern "C" fn hive_header(line: &[u8], answer: &mut [u64]) -> u32
    ensures { HeaderAnswered line.now answer.old result answer.new }
{
    c_lines::header(line, answer)
}

// A latitude and a longitude in degrees.
#[unsafe(no_mangle)]
pub extern "C" fn hive_degrees(
    latitude: u64,
    n_or_s: u8,
    latitude_decimals: u8,
    longitude: u64,
    e_or_w: u8,
    longitude_decimals: u8,
    degrees: &mut [f64],
) -> u32
    ensures { DegreesAnswered (record { count = latitude; letter = n_or_s; decimals = latitude_decimals }) (record { count = longitude; letter = e_or_w; decimals = longitude_decimals }) degrees.old result degrees.new }
{
    c_lines::degrees(
        latitude,
        n_or_s,
        latitude_decimals,
        longitude,
        e_or_w,
        longitude_decimals,
        degrees,
    )
}
