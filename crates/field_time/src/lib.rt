// The fields of a line: read at a place of it.
#![tactic(auto)]

ghost use Rattle.std.specs.Prelude.{◌≤◌, ◌≡◌};
ghost use Rattle.rules.specs.Fields.{is_second, is_leap, year_of};
ghost use Rattle.field_time.specs.Days.{DaysGiven};
ghost use Rattle.rules.specs.Promises.{TimeAt, DateAt};

pub use field_altitude::altitude_at;
pub use field_position::{latitude_at, longitude_at};
use rules::Date;

// Whether a minute has a second: 0 to 59, and 60 at 23:59.
#[tactic(auto, unfolding(rules::specs::Fields::is_second))]
fn is_second(h: u64, m: u64, x: u64) -> bool
    ensures { result ≡ is_second h m x }
{
    x <= 59 || (x == 60 && h == 23 && m == 59)
}

// HHMMSS at a place of s, as seconds of the day; 235960 is 86400. None where the field breaks its rule or s ends before.
#[tactic(auto, using(rules::proofs::Links::fields, byte_number::proofs::Laws::reads), unfolding(rules::specs::Fields::time_at))]
pub fn time_at(s: &[u8], at: usize) -> Option<u32>
    ensures { TimeAt s.now at result }
{
    let Some(h) = byte_digits::two(s, at) else {
        return None;
    };
    let Some(m) = byte_digits::two(s, at + 2) else {
        return None;
    };
    let Some(x) = byte_digits::two(s, at + 4) else {
        return None;
    };
    if 23 < h {
        return None;
    }
    if 59 < m {
        return None;
    }
    if !is_second(h, m, x) {
        return None;
    }
    Some((h * 3600 + m * 60 + x) as u32)
}

// Whether 400 divides a year, or 4 and not 100.
#[tactic(auto, unfolding(rules::specs::Fields::is_leap))]
fn is_leap(y: u16) -> bool
    ensures { result ≡ is_leap y }
{
    y % 400 == 0 || (y % 100 != 0 && y % 4 == 0)
}

const MONTHS: [u64; 13] = [0, 31, 28, 31, 30, 31, 30, 31, 31, 30, 31, 30, 31];

// How many days a month of a year has; none where there is no such month.
#[tactic(auto, unfolding(rules::specs::Fields::days_of))]
pub fn days_of(y: u16, m: u64) -> u64
    ensures { DaysGiven y m result }
{
    if m == 2 {
        return if is_leap(y) { 29 } else { 28 };
    }
    MONTHS.get(m as usize).copied().unwrap_or(0)
}

// The year of two digits: 1980 to 2079.
#[tactic(auto, unfolding(rules::specs::Fields::year_of))]
fn year_of(yy: u64) -> u16
    requires { yy ≤ 99 }
    ensures { result ≡ year_of yy }
{
    if 80 <= yy {
        1900 + yy as u16
    } else {
        2000 + yy as u16
    }
}

// DDMMYY at a place of s. None where that day does not exist, another byte than a digit stands there, or s ends before.
#[tactic(auto, using(rules::proofs::Links::fields, byte_number::proofs::Laws::reads), unfolding(rules::specs::Fields::date_at))]
pub fn date_at(s: &[u8], at: usize) -> Option<Date>
    ensures { DateAt s.now at result }
{
    let Some(d) = byte_digits::two(s, at) else {
        return None;
    };
    let Some(m) = byte_digits::two(s, at + 2) else {
        return None;
    };
    let Some(yy) = byte_digits::two(s, at + 4) else {
        return None;
    };
    let y = year_of(yy);
    if d < 1 {
        return None;
    }
    let days = days_of(y, m);
    if days < d {
        return None;
    }
    Some(Date {
        day: d as u8,
        month: m as u8,
        year: y,
    })
}
