// Tests of every byte of a text. None has a way out before the text's end, as `all` would have, so that the compiler takes many bytes at a time.
#![tactic(auto)]

ghost use Rattle.std.specs.Prelude.{◌≡◌};
ghost use Rattle.byte_sweep.specs.Plain.{is_plain, is_mild, PlainTest, MildTest, DigitsTest, SignTest, ZerosTest};

// Whether a byte is from the minus to the opening bracket. Both tests are made, and so below: with a way out before the last one the compiler takes one byte at a time.
#[tactic(auto, unfolding(crate::specs::Plain::is_plain))]
fn is_plain_byte(b: u8) -> bool
    ensures { result ≡ is_plain b }
{
    (45 <= b) & (b <= 91)
}

// Whether every byte of a text is from the minus to the opening bracket: valid in every line, and neither CR nor LF.
pub fn is_plain(text: &[u8]) -> bool
    ensures { PlainTest text.now result }
{
    text.iter()
        .copied()
        .fold(true, |ok, b| ok & is_plain_byte(b))
}

// Whether a byte is plain, a space, a closing bracket, or from the low line to the closing brace.
#[tactic(auto, unfolding(crate::specs::Plain::is_plain, crate::specs::Plain::is_mild))]
fn is_mild_byte(b: u8) -> bool
    ensures { result ≡ is_mild b }
{
    (b == 32) | (b == 93) | is_plain_byte(b) | ((95 <= b) & (b <= 125))
}

// Whether every byte of a text from an offset on is plain, a space, a closing bracket, or from the low line to the closing brace: valid in every line too, and neither CR
// nor LF.
pub fn is_mild_from(text: &[u8], from: usize) -> bool
    ensures { MildTest text.now from result }
{
    let rest = &text[from.min(text.len())..];
    rest.iter()
        .copied()
        .fold(true, |ok, b| ok & is_mild_byte(b))
}

// Whether every byte of a text from an offset on is a digit.
pub fn is_digits_from(text: &[u8], from: usize) -> bool
    ensures { DigitsTest text.now from result }
{
    let rest = &text[from.min(text.len())..];
    rest.iter()
        .copied()
        .fold(true, |ok, b| ok & byte_number::is_digit(b))
}

// Whether a text is digits or, where a sign is allowed, a minus and at least one digit.
#[tactic(auto, unfolding(rules::specs::Listed::keeps_sign))]
pub fn keeps_sign(sign: bool, text: &[u8]) -> bool
    ensures { SignTest sign text.now result }
{
    is_digits_from(text, 0)
        || (sign && byte_chars::byte(text, 0) == b'-' && 2 <= text.len() && is_digits_from(text, 1))
}

// Whether every byte of a text is a zero.
pub fn is_zeros(text: &[u8]) -> bool
    ensures { ZerosTest text.now result }
{
    text.iter().copied().fold(true, |ok, b| ok & (b == b'0'))
}
