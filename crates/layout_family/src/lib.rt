// The families of lines with columns: where their columns start, their letters, and which family a line is of.
#![tactic(auto)]

ghost use Rattle.layout_family.specs.Letters.{StartGiven, LineLetterGiven, LayoutLetterGiven, FamilyGiven, LayoutFamilyGiven};

use rules::{Extra, Family};

// Where the first column of a family starts: byte 36 of a B line, byte 8 of a K or an N line.
pub fn first_start(family: Family) -> usize
    ensures { StartGiven family result }
{
    match family {
        Family::B => 36,
        Family::Extra(_) => 8,
    }
}

// The first byte of a family's lines.
pub fn line_letter(family: Family) -> u8
    ensures { LineLetterGiven family result }
{
    match family {
        Family::B => b'B',
        Family::Extra(e) => match e {
            Extra::K => b'K',
            Extra::N => b'N',
        },
    }
}

// The first byte of the line that tells a family's layout.
pub fn layout_letter(family: Family) -> u8
    ensures { LayoutLetterGiven family result }
{
    match family {
        Family::B => b'I',
        Family::Extra(e) => match e {
            Extra::K => b'J',
            Extra::N => b'M',
        },
    }
}

// The family that a line is of, by its first byte.
#[tactic(auto, unfolding(rules::specs::Families::family_of))]
pub fn family(line: &[u8]) -> Option<Family>
    ensures { FamilyGiven line.now result }
{
    match byte_chars::byte(line, 0) {
        b'B' => Some(Family::B),
        b'K' => Some(Family::Extra(Extra::K)),
        b'N' => Some(Family::Extra(Extra::N)),
        _ => None,
    }
}

// The family whose layout a line tells, by its first byte.
#[tactic(auto, unfolding(rules::specs::Families::layout_family_of))]
pub fn layout_family(line: &[u8]) -> Option<Family>
    ensures { LayoutFamilyGiven line.now result }
{
    match byte_chars::byte(line, 0) {
        b'I' => Some(Family::B),
        b'J' => Some(Family::Extra(Extra::K)),
        b'M' => Some(Family::Extra(Extra::N)),
        _ => None,
    }
}
