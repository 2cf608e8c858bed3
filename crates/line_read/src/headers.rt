// An H line behind the second one taken apart; the second line meets the same rule.
ghost use Rattle.std.specs.Prelude.{◌≡◌};
ghost use Rattle.line_read.specs.Headers.{header_in, HeaderGiven};

use line_known::of_kind;
use rules::Refusal;

// What an H line says: its source, F or O, the three characters of its code, and its text: how many bytes stand before it, and how many it has.
#[derive(Clone, Copy, Debug, PartialEq, Eq)]
pub struct HeaderLine {
    pub source: u8,
    pub first: u8,
    pub second: u8,
    pub third: u8,
    pub text: usize,
    pub length: usize,
}

// What stands at the places of an H line.
fn header_in(line: &[u8]) -> HeaderLine
    ensures { result ≡ header_in line.now }
{
    HeaderLine {
        source: byte_chars::byte(line, 1),
        first: byte_chars::byte(line, 2),
        second: byte_chars::byte(line, 3),
        third: byte_chars::byte(line, 4),
        text: 5,
        length: line.len().saturating_sub(5),
    }
}

// An H line taken apart. BAD_VALUE for another kind; then what `line_check::header` refuses.
pub fn header(line: &[u8]) -> Result<HeaderLine, Refusal>
    ensures { HeaderGiven line.now result }
{
    of_kind(b'H', line)?;
    line_check::header(line)?;
    Ok(header_in(line))
}
