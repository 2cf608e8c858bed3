// A latitude or a longitude read at a place of a line.
#![tactic(auto)]

ghost use Rattle.std.specs.Prelude.{◌≤◌, ◌≡◌};
ghost use Rattle.rules.specs.Fields.{position_at};
ghost use Rattle.rules.specs.Promises.{DigitsGiven, LatitudeAt, LongitudeAt};

use rules::Position;

// Degrees of `width` digits, two or three of them, at a place of s.
fn degrees_at(s: &[u8], at: usize, width: usize) -> Option<u64>
    requires { (2 ≤ width) × (width ≤ 3) }
    ensures { DigitsGiven s.now at width result }
{
    if width < 3 {
        return byte_digits::two(s, at);
    }
    byte_digits::three(s, at)
}

// Degrees of `width` digits, MMmmm and one of two letters at a place of s, as a count of `most` at most with its letter beside it.
#[tactic(auto, using(rules::proofs::Links::fields, byte_number::proofs::Laws::reads), unfolding(rules::specs::Fields::position_at))]
fn position_at(s: &[u8], at: usize, width: usize, most: u64, a: u8, b: u8) -> Option<Position>
    requires { (2 ≤ width) × (width ≤ 3) }
    ensures { result ≡ position_at s.now at width most a b }
{
    let Some(d) = degrees_at(s, at, width) else {
        return None;
    };
    let Some(m) = byte_digits::five(s, at + width) else {
        return None;
    };
    if 59999 < m {
        return None;
    }
    let count = d * 60000 + m;
    if most < count {
        return None;
    }
    let letter = byte_chars::byte(s, at + width + 5);
    if byte_chars::is_either(letter, a, b) {
        return Some(Position { count, letter });
    }
    None
}

// DDMMmmm and N or S at a place of s. None where the field breaks its rule, is over 5,400,000, or s ends before.
pub fn latitude_at(s: &[u8], at: usize) -> Option<Position>
    ensures { LatitudeAt s.now at result }
{
    position_at(s, at, 2, 5400000, b'N', b'S')
}

// DDDMMmmm and E or W at a place of s. None where the field breaks its rule, is over 10,800,000, or s ends before.
pub fn longitude_at(s: &[u8], at: usize) -> Option<Position>
    ensures { LongitudeAt s.now at result }
{
    position_at(s, at, 3, 10800000, b'E', b'W')
}
