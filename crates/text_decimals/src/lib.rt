// A time and a position in degrees as text, with the decimals that the file has.
#![tactic(auto)]

ghost use Rattle.std.specs.Prelude.{◌+◌, ◌≤◌};
ghost use Rattle.text_pieces.specs.Buffer.{PiecePut};
ghost use Rattle.text_decimals.specs.Decimals.{behind_dot, extra_shown, seconds_behind, clock_behind, shown_seconds, shown_clock, with_decimals, units_of, degrees_behind, shown_degrees};

use rules::{FinePosition, FineTime};
use text_pieces::{put_byte, put_decimal, put_text};

// A dot and the last n digits of a number.
fn put_behind_dot(out: &mut [u8], at: usize, n: usize, v: u64) -> usize
    requires { n ≤ 10 }
    ensures { PiecePut out.old at (behind_dot n v) result out.new }
{
    let mut ten = [48u8; 10];
    byte_put::digits(&mut ten, 0, n, v);
    let a = put_byte(out, at, b'.');
    put_text(out, a, &ten[..n])
}

// The extra decimals of a count, where there are some.
fn put_extra(out: &mut [u8], at: usize, n: usize, v: u64) -> usize
    requires { n ≤ 10 }
    ensures { PiecePut out.old at (extra_shown n v) result out.new }
{
    if n == 0 {
        return at;
    }
    put_behind_dot(out, at, n, v)
}

// A mark and HH:MM:SS, of a count of seconds; 86,400 is 23:59:60. The answer is the place behind it; a full buffer takes no more.
pub fn put_seconds_behind(out: &mut [u8], at: usize, mark: u8, t: u32) -> usize
    ensures { PiecePut out.old at (seconds_behind mark t) result out.new }
{
    let mut six = [48u8; 6];
    write_fields::time(&mut six, 0, t);
    let text = [
        mark, six[0], six[1], b':', six[2], six[3], b':', six[4], six[5],
    ];
    put_text(out, at, &text)
}

// The same behind a space.
#[tactic(auto, unfolding(crate::specs::Decimals::shown_seconds, crate::specs::Decimals::seconds_behind))]
pub fn put_seconds(out: &mut [u8], at: usize, t: u32) -> usize
    ensures { PiecePut out.old at (shown_seconds t) result out.new }
{
    put_seconds_behind(out, at, b' ', t)
}

// A mark and a time as HH:MM:SS, with its extra decimals, 4 where there are more. The answer is the place behind it; a full buffer takes no more.
pub fn put_clock_behind(out: &mut [u8], at: usize, mark: u8, t: FineTime) -> usize
    ensures { PiecePut out.old at (clock_behind mark t) result out.new }
{
    let n = byte_tens::few(t.decimals);
    let seconds = t.count / byte_tens::power(t.decimals) as u32;
    let a = put_seconds_behind(out, at, mark, seconds);
    put_extra(out, a, n as usize, t.count as u64)
}

// The same behind a space.
#[tactic(auto, unfolding(crate::specs::Decimals::shown_clock, crate::specs::Decimals::clock_behind, crate::specs::Decimals::shown_seconds, crate::specs::Decimals::seconds_behind))]
pub fn put_clock(out: &mut [u8], at: usize, t: FineTime) -> usize
    ensures { PiecePut out.old at (shown_clock t) result out.new }
{
    put_clock_behind(out, at, b' ', t)
}

// A count of thousandths of a minute, with n extra decimals, as degrees with n more than six decimals. The whole degrees are taken off first, so that no product is too great.
fn put_decimals(out: &mut [u8], at: usize, n: u8, count: u64) -> usize
    requires { n ≤ 4 }
    ensures { PiecePut out.old at (with_decimals (6 + n) (units_of count)) result out.new }
{
    let whole = 60000 * byte_tens::power(n);
    let a = put_decimal(out, at, count / whole);
    put_behind_dot(out, a, 6 + n as usize, (count % whole * 50 + 1) / 3)
}

// A mark and a position in degrees, south and west with a minus. The answer is the place behind it; a full buffer takes no more.
pub fn put_degrees_behind(out: &mut [u8], at: usize, mark: u8, p: FinePosition) -> usize
    ensures { PiecePut out.old at (degrees_behind mark p) result out.new }
{
    let n = byte_tens::few(p.decimals);
    let a = put_byte(out, at, mark);
    if field_degrees::is_negated(p) {
        let b = put_byte(out, a, b'-');
        return put_decimals(out, b, n, p.count);
    }
    put_decimals(out, a, n, p.count)
}

// The same behind a space.
#[tactic(auto, unfolding(crate::specs::Decimals::shown_degrees, crate::specs::Decimals::degrees_behind))]
pub fn put_degrees(out: &mut [u8], at: usize, p: FinePosition) -> usize
    ensures { PiecePut out.old at (shown_degrees p) result out.new }
{
    put_degrees_behind(out, at, b' ', p)
}
