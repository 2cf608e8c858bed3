// A quick test of the fields of a B line before its columns, by bounds for each byte: a line that passes it has its position, its validity and both its altitudes.
#![tactic(auto)]

ghost use Rattle.std.specs.Prelude.{◌≡◌, ◌&&◌, length, drop};
ghost use Rattle.check_front.specs.Front.{is_within, between, is_bounded, BelowTest, FrontTest};

// The least that the bytes at the offsets 3 to 34 may be: minutes and seconds of the time, latitude, longitude, validity and two altitudes.
const LOW: [u8; 32] = *b"00000000000N00000000EA0000000000";

// The most that they may be: longitudes below 80 degrees, and from 100 up to 179.
const HIGH: [u8; 32] = *b"59598959999S17959999WV9999999999";

// The most that they may be: longitudes below 100 degrees.
const NEAR: [u8; 32] = *b"59598959999S09959999WV9999999999";

// Whether all bytes so far were within their bounds, and this one is.
#[tactic(auto, unfolding(crate::specs::Front::is_within))]
fn still(ok: bool, low: u8, high: u8, b: u8) -> bool
    ensures { result ≡ (ok && is_within low high b) }
{
    ok && low <= b && b <= high
}

// Whether each byte at the offsets 3 to 34 is there and within its bounds. It has no way out before the last one, so that the compiler takes many bytes at a time; the
// bounds are lent, since a constant that is named in a loop is made anew at each turn.
#[tactic(auto, using(crate::proofs::Laws::between_short))]
fn is_between(line: &[u8], low: &[u8], high: &[u8]) -> bool
    requires { (length low.now ≡ 32) × (length high.now ≡ 32) }
    ensures { result ≡ between low.now high.now (drop 3 line.now) }
{
    if line.len() < 35 {
        return false;
    }
    let mut ok = true;
    for i in 0..32 {
        ok = still(ok, low[i], high[i], line[3 + i]);
    }
    ok
}

// Whether each byte is within its bounds, the longitude below 180 degrees.
#[tactic(auto, unfolding(crate::specs::Front::is_bounded, rules::specs::Choice::bytes))]
fn is_bounded(line: &[u8]) -> bool
    ensures { result ≡ is_bounded line.now }
{
    is_between(line, &LOW, &HIGH) || is_between(line, &LOW, &NEAR)
}

// Whether each byte is within its bounds, and the three letters are right.
#[tactic(auto, unfolding(crate::specs::Front::is_front))]
pub fn is_front(line: &[u8]) -> bool
    ensures { FrontTest line.now result }
{
    is_bounded(line)
        && byte_chars::is_either(byte_chars::byte(line, 14), b'N', b'S')
        && byte_chars::is_either(byte_chars::byte(line, 23), b'E', b'W')
        && byte_chars::is_either(byte_chars::byte(line, 24), b'A', b'V')
}

// Whether a longitude of digits, the first of them 0 or 1, is below 180 degrees.
#[tactic(auto, unfolding(crate::specs::Front::is_below))]
pub fn is_below(hundreds: u8, tens: u8) -> bool
    ensures { BelowTest hundreds tens result }
{
    (hundreds <= b'0') | (tens <= b'7')
}
