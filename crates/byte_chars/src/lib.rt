// The characters of a line: a byte at a place, and what a byte may be.
#![tactic(auto)]

ghost use Rattle.std.specs.Prelude.{false, ◌≡◌};
ghost use Rattle.rules.specs.Chars.{is_valid};
ghost use Rattle.byte_chars.specs.Characters.{Agrees, TextTold};
ghost use Rattle.rules.specs.Promises.{ByteAt, EitherTest, CodeTest, ValidTest, InvalidFound, CodesTest};

use byte_number::is_digit;

// The byte behind `at` others, 0 past the end.
pub fn byte(s: &[u8], at: usize) -> u8
    ensures { ByteAt s.now at result }
{
    s.get(at).copied().unwrap_or(0)
}

// Whether x is one of two bytes.
#[tactic(auto, unfolding(rules::specs::Fields::is_either))]
pub fn is_either(x: u8, a: u8, b: u8) -> bool
    ensures { EitherTest x a b result }
{
    (x == a) | (x == b)
}

// Whether a byte is one of A to Z and 0 to 9.
#[tactic(auto, unfolding(rules::specs::Chars::is_code))]
pub fn is_code(b: u8) -> bool
    ensures { CodeTest b result }
{
    is_digit(b) || (b'A' <= b && b <= b'Z')
}

// A number for each byte: 0 never valid, 1 valid, 2 the comma, valid in H lines only. A row has sixteen bytes: the first those from hex 00 to 0F, the last those from F0 to FF.
const CHARACTERS: [u8; 256] = *b"\
    \x00\x00\x00\x00\x00\x00\x00\x00\x00\x00\x00\x00\x00\x00\x00\x00\
    \x00\x00\x00\x00\x00\x00\x00\x00\x00\x00\x00\x00\x00\x00\x00\x00\
    \x01\x00\x01\x01\x00\x01\x01\x01\x01\x01\x00\x01\x02\x01\x01\x01\
    \x01\x01\x01\x01\x01\x01\x01\x01\x01\x01\x01\x01\x01\x01\x01\x01\
    \x01\x01\x01\x01\x01\x01\x01\x01\x01\x01\x01\x01\x01\x01\x01\x01\
    \x01\x01\x01\x01\x01\x01\x01\x01\x01\x01\x01\x01\x00\x01\x00\x01\
    \x01\x01\x01\x01\x01\x01\x01\x01\x01\x01\x01\x01\x01\x01\x01\x01\
    \x01\x01\x01\x01\x01\x01\x01\x01\x01\x01\x01\x01\x01\x01\x00\x00\
    \x00\x00\x00\x00\x00\x00\x00\x00\x00\x00\x00\x00\x00\x00\x00\x00\
    \x00\x00\x00\x00\x00\x00\x00\x00\x00\x00\x00\x00\x00\x00\x00\x00\
    \x00\x00\x00\x00\x00\x00\x00\x00\x00\x00\x00\x00\x00\x00\x00\x00\
    \x00\x00\x00\x00\x00\x00\x00\x00\x00\x00\x00\x00\x00\x00\x00\x00\
    \x00\x00\x00\x00\x00\x00\x00\x00\x00\x00\x00\x00\x00\x00\x00\x00\
    \x00\x00\x00\x00\x00\x00\x00\x00\x00\x00\x00\x00\x00\x00\x00\x00\
    \x00\x00\x00\x00\x00\x00\x00\x00\x00\x00\x00\x00\x00\x00\x00\x00\
    \x00\x00\x00\x00\x00\x00\x00\x00\x00\x00\x00\x00\x00\x00\x00\x00\
";

// The table of the characters. It is lent to what reads it, since a constant that is named in a loop is made anew at each turn.
fn characters() -> [u8; 256]
    ensures { Agrees result }
{
    CHARACTERS
}

// Whether a byte may stand in a line, by the table.
fn is_valid_by(table: &[u8], in_h: bool, b: u8) -> bool
    requires { Agrees table.now }
    ensures { ValidTest in_h b result }
{
    match table[b as usize] {
        1 => true,
        0 => false,
        _ => in_h,
    }
}

// Whether a byte may stand in a line; in an H line a comma too.
pub fn is_valid(in_h: bool, b: u8) -> bool
    ensures { ValidTest in_h b result }
{
    let table = characters();
    is_valid_by(&table, in_h, b)
}

// How many bytes of a line stand before the first one that may not stand there, by the table.
fn first_invalid_by(table: &[u8], in_h: bool, line: &[u8]) -> Option<usize>
    requires { Agrees table.now }
    ensures { InvalidFound in_h line.now result }
{
    for (i, b) in line.iter().enumerate() {
        if !is_valid_by(table, in_h, *b) {
            return Some(i);
        }
    }
    None
}

// Whether a byte may stand in every line. All its tests are made, so that the compiler takes many bytes at a time; two that differ in one bit stand side by side, and become one.
fn is_text_byte(b: u8) -> bool
    ensures { result ≡ is_valid false b }
{
    let within = (32 <= b) & (b <= 125);
    let some = (b != 33) & (b != 42);
    within & some & ((b != 36) & (b != 44)) & ((b != 92) & (b != 94))
}

// Whether each byte of a line may stand in every line. It has no way out before the line's end, as `all` would have.
fn is_text(line: &[u8]) -> bool
    ensures { TextTold line.now result }
{
    line.iter()
        .copied()
        .fold(true, |ok, b| ok & is_text_byte(b))
}

// How many bytes of a line stand before the first one that may not stand there. Nothing where each may.
pub fn first_invalid(in_h: bool, line: &[u8]) -> Option<usize>
    ensures { InvalidFound in_h line.now result }
{
    if is_text(line) {
        return None;
    }
    let table = characters();
    first_invalid_by(&table, in_h, line)
}

// Whether n code characters stand at a place of s: false where s ends before.
pub fn codes_at(s: &[u8], at: usize, n: usize) -> bool
    ensures { CodesTest s.now at n result }
{
    let Some(text) = s[at.min(s.len())..].get(..n) else {
        return false;
    };
    for b in text {
        if !is_code(*b) {
            return false;
        }
    }
    true
}
