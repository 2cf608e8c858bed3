// An altitude read at a place of a line.
#![tactic(auto)]

ghost use Rattle.std.specs.Prelude.{◌≤◌, ◌≡◌, pos, neg_ℤ};
ghost use Rattle.rules.specs.Promises.{AltitudeAt};

use rules::Height;

// v metres up.
fn above(v: u64) -> Height
    requires { v ≤ 99999 }
    ensures { result ≡ record { metres = pos v } }
{
    Height { metres: v as i32 }
}

// v metres down.
fn below(v: u64) -> Height
    requires { v ≤ 99999 }
    ensures { result ≡ record { metres = neg_ℤ (pos v) } }
{
    Height {
        metres: -(v as i32),
    }
}

// Five digits, or a minus and four digits that are not all zero, at a place of s. None where the field breaks its rule or s ends before.
#[tactic(auto, using(rules::proofs::Links::fields, byte_number::proofs::Laws::reads), unfolding(rules::specs::Fields::altitude_at))]
pub fn altitude_at(s: &[u8], at: usize) -> Option<Height>
    ensures { AltitudeAt s.now at result }
{
    let b = byte_chars::byte(s, at);
    if b == b'-' {
        let Some(v) = byte_digits::four(s, at + 1) else {
            return None;
        };
        if v < 1 {
            return None;
        }
        return Some(below(v));
    }
    let Some(v) = byte_digits::five(s, at) else {
        return None;
    };
    Some(above(v))
}
