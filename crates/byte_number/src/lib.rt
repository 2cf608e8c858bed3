// Digits as a number, and a text as a whole number with its sign.
#![tactic(auto)]

ghost use Rattle.std.specs.Prelude.{◌<◌, ◌≤◌, ◌^◌, ◌≡◌, length, pos, neg_ℤ};
ghost use Rattle.rules.specs.Promises.{DigitTest, DigitsGiven, WholeGiven};

use rules::Signed;

// Whether a byte is one of 0 to 9.
#[tactic(auto, unfolding(rules::specs::Chars::is_digit))]
pub fn is_digit(b: u8) -> bool
    ensures { DigitTest b result }
{
    b'0' <= b && b <= b'9'
}

// The number that the digits of a text spell. None where another byte stands there, or they are over 18.
pub fn spelt(text: &[u8]) -> Option<u64>
    ensures { DigitsGiven text.now 0 (length text.now) result }
{
    if 18 < text.len() {
        return None;
    }
    let mut v: u64 = 0;
    for b in text {
        if !is_digit(*b) {
            return None;
        }
        v = v * 10 + u64::from(*b - b'0');
    }
    Some(v)
}

// The number that n digits at a place of s spell. None where another byte stands there, s ends before, or n is over 18.
pub fn digits(s: &[u8], at: usize, n: usize) -> Option<u64>
    ensures { DigitsGiven s.now at n result }
{
    if 18 < n {
        return None;
    }
    spelt(s[at.min(s.len())..].get(..n)?)
}

// v with its sign.
fn plus(v: u64) -> Signed
    requires { v < 2 ^ 63 }
    ensures { result ≡ record { value = pos v } }
{
    Signed { value: v as i64 }
}

// v under a minus; 0 stays 0.
fn minus(v: u64) -> Signed
    requires { v < 2 ^ 63 }
    ensures { result ≡ record { value = neg_ℤ (pos v) } }
{
    Signed { value: -(v as i64) }
}

// A whole text as a number: 1 to 18 digits, with or without a minus before them. None for any other text.
#[tactic(auto, using(rules::proofs::Links::fields, crate::proofs::Laws::reads, crate::proofs::Laws::whole_empty), unfolding(rules::specs::Numbers::whole_of, rules::specs::Choice::on))]
pub fn whole(text: &[u8]) -> Option<Signed>
    ensures { WholeGiven text.now result }
{
    let n = text.len();
    if n < 1 {
        return None;
    }
    if text[0] == b'-' {
        if n < 2 {
            return None;
        }
        let v = digits(text, 1, n - 1)?;
        return Some(minus(v));
    }
    let v = digits(text, 0, n)?;
    Some(plus(v))
}
