// Whether one field's value, a C point with its text, or the text of a line keeps to its limits.
#![tactic(auto)]

ghost use Rattle.std.specs.Prelude.{◌≡◌};
ghost use Rattle.rules.specs.Degrees.{is_position};
ghost use Rattle.write_values.specs.Tests.{CleanTest, DateTest, PlannedTest, LatitudeTest, LongitudeTest, AltitudeTest, PointTest};

use rules::{Date, Height, Point, Position};

// Whether no character of a text is invalid outside H lines.
#[tactic(auto, unfolding(rules::specs::Limits::is_clean))]
pub fn is_clean(text: &[u8]) -> bool
    ensures { CleanTest text.now result }
{
    byte_chars::first_invalid(false, text).is_none()
}

// Whether a day exists, in a year of 1980 to 2079.
#[tactic(auto, unfolding(rules::specs::Limits::is_date, rules::specs::Choice::on))]
pub fn is_date(d: Date) -> bool
    ensures { DateTest d result }
{
    let days = field_time::days_of(d.year, d.month as u64);
    1980 <= d.year && d.year <= 2079 && 1 <= d.day && d.day as u64 <= days
}

// Whether a flight date is not given, or exists.
#[tactic(auto, unfolding(rules::specs::Limits::is_planned))]
pub fn is_planned(f: Option<Date>) -> bool
    ensures { PlannedTest f result }
{
    match f {
        Some(d) => is_date(d),
        None => true,
    }
}

// Whether a count is `most` at most, and its letter one of two.
#[tactic(auto, unfolding(rules::specs::Degrees::is_position))]
fn is_position(p: Position, most: u64, a: u8, b: u8) -> bool
    ensures { result ≡ is_position most a b p }
{
    p.count <= most && byte_chars::is_either(p.letter, a, b)
}

// Whether a latitude is 5,400,000 at most, N or S.
pub fn is_latitude(p: Position) -> bool
    ensures { LatitudeTest p result }
{
    is_position(p, 5400000, b'N', b'S')
}

// Whether a longitude is 10,800,000 at most, E or W.
pub fn is_longitude(p: Position) -> bool
    ensures { LongitudeTest p result }
{
    is_position(p, 10800000, b'E', b'W')
}

// Whether an altitude is one of -9,999 to 99,999.
#[tactic(auto, unfolding(rules::specs::Limits::is_altitude))]
pub fn is_altitude(h: Height) -> bool
    ensures { AltitudeTest h result }
{
    -9999 <= h.metres && h.metres <= 99999
}

// Whether some C point line reads as the point, with this text behind it.
#[tactic(auto, unfolding(rules::specs::Limits::good_point))]
pub fn good_point(p: Point, rest: &[u8]) -> bool
    ensures { PointTest p rest.now result }
{
    is_latitude(p.lat) && is_longitude(p.lon) && 18 + rest.len() <= 255 && is_clean(rest)
}
