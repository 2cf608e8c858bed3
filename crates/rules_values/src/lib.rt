// Values of the shared types that several crates need: the empty layout, and the sign and the size of an altitude.
#![tactic(auto)]

ghost use Rattle.rules_values.specs.Basics.{NoColumns, NoMinus, MagnitudeGiven};

use rules::{Entry, Height, Layout};

// No columns.
pub fn empty_layout() -> Layout
    ensures { NoColumns result }
{
    let unused = Entry {
        first: 0,
        last: 0,
        code: 0,
    };
    Layout {
        count: 0,
        entries: [unused; 13],
    }
}

// Whether an altitude has no minus.
pub fn has_no_minus(h: Height) -> bool
    ensures { NoMinus h result }
{
    0 <= h.metres
}

// How many metres an altitude is from zero.
pub fn magnitude(h: Height) -> u64
    ensures { MagnitudeGiven h result }
{
    u64::from(h.metres.unsigned_abs())
}
