// The fields of a B line of which `front` has told that they are good, read with no test: which bytes are digits is known already.
ghost use Rattle.std.specs.Prelude.{◌≤◌, true, ◌≡◌, pos};
ghost use Rattle.rules.specs.Fields.{time_at, most_latitude, most_longitude, latitude_at, longitude_at, altitude_at};
ghost use Rattle.check_front.specs.Front.{is_front};
ghost use Rattle.track_step.specs.Known.{Numbered, NumberKnown, FieldsKnown};

use rules::{FixFields, Height, Position};

// The number of one digit that is known to stand at a place.
fn one(s: &[u8], at: usize) -> u64
    requires { Numbered s.now at 1 }
    ensures { NumberKnown s.now at 1 result }
{
    let b = s[at];
    b as u64 - 48
}

// The number of two such digits: one and one.
fn two(s: &[u8], at: usize) -> u64
    requires { Numbered s.now at 2 }
    ensures { NumberKnown s.now at 2 result }
{
    one(s, at) * 10 + one(s, at + 1)
}

// The number of three: two and one.
fn three(s: &[u8], at: usize) -> u64
    requires { Numbered s.now at 3 }
    ensures { NumberKnown s.now at 3 result }
{
    two(s, at) * 10 + one(s, at + 2)
}

// The number of four: three and one.
fn four(s: &[u8], at: usize) -> u64
    requires { Numbered s.now at 4 }
    ensures { NumberKnown s.now at 4 result }
{
    three(s, at) * 10 + one(s, at + 3)
}

// The number of five: four and one.
fn five(s: &[u8], at: usize) -> u64
    requires { Numbered s.now at 5 }
    ensures { NumberKnown s.now at 5 result }
{
    four(s, at) * 10 + one(s, at + 4)
}

// The latitude of such a line.
fn latitude(line: &[u8]) -> Position
    requires { is_front line.now ≡ true }
    ensures { (latitude_at line.now 7 ≡ Some result) × (result.count ≤ most_latitude) }
{
    let count = two(line, 7) * 60000 + five(line, 9);
    Position {
        count,
        letter: line[14],
    }
}

// Its longitude.
fn longitude(line: &[u8]) -> Position
    requires { is_front line.now ≡ true }
    ensures { (longitude_at line.now 15 ≡ Some result) × (result.count ≤ most_longitude) }
{
    let count = three(line, 15) * 60000 + five(line, 18);
    Position {
        count,
        letter: line[23],
    }
}

// v metres up.
fn up(v: u64) -> Height
    requires { v ≤ 99999 }
    ensures { result ≡ record { metres = pos v } }
{
    Height { metres: v as i32 }
}

// An altitude of five digits that are known to stand at a place.
fn height(line: &[u8], at: usize) -> Height
    requires { Numbered line.now at 5 }
    ensures { altitude_at line.now at ≡ Some result }
{
    up(five(line, at))
}

// The fields of such a line before its columns, with this time.
pub(crate) fn fields_of(line: &[u8], time: u32) -> FixFields
    requires { (is_front line.now ≡ true) × (time_at line.now 1 ≡ Some time) }
    ensures { FieldsKnown line.now result }
{
    let lat = latitude(line);
    let lon = longitude(line);
    let pressure = height(line, 25);
    let gnss = height(line, 30);
    FixFields {
        time,
        lat,
        lon,
        validity: line[24],
        pressure,
        gnss,
    }
}
