// The kind of a line, told by its first byte.
#![tactic(auto)]

ghost use Rattle.rules.specs.Promises.{KindGiven};

use rules::Kind;

// The kind of a line that begins with this byte; NoKind where it is not A to Z.
pub fn kind_of(b: u8) -> Kind
    ensures { KindGiven b result }
{
    match b {
        b'A' => Kind::A,
        b'B' => Kind::B,
        b'C' => Kind::C,
        b'D' => Kind::D,
        b'E' => Kind::E,
        b'F' => Kind::F,
        b'G' => Kind::G,
        b'H' => Kind::H,
        b'I' => Kind::I,
        b'J' => Kind::J,
        b'K' => Kind::K,
        b'L' => Kind::L,
        b'M' => Kind::M,
        b'N' => Kind::N,
        b'O'..=b'Z' => Kind::Other,
        _ => Kind::NoKind,
    }
}
