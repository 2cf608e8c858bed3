// A moment and a height as other programs read them, put into a lent buffer.
#![tactic(auto)]

ghost use Rattle.text_pieces.specs.Buffer.{PiecePut};
ghost use Rattle.text_calendar.specs.Calendar.{civil_told};
ghost use Rattle.text_dates.specs.Dates.{date_shown};
ghost use Rattle.text_instant.specs.Instants.{moment_of};

use rules::{Date, FineTime};
use text_calendar::Civil;
use text_dates::put_two;
use text_decimals::put_clock_behind;
pub use text_listing::put_height;
use text_pieces::{put_byte, put_decimal};

// A date such as 2024-07-15.
fn put_civil(out: &mut [u8], at: usize, c: Civil) -> usize
    ensures { PiecePut out.old at (date_shown (civil_told c)) result out.new }
{
    let a = put_decimal(out, at, c.year as u64);
    let b = put_two(out, a, b'-', c.month);
    put_two(out, b, b'-', c.day)
}

// A moment such as 2023-12-31T23:59:60.5Z, so many days after a date. The answer is the place behind it; a full buffer takes no more.
pub fn put_instant(out: &mut [u8], at: usize, date: Date, day: u32, t: FineTime) -> usize
    ensures { PiecePut out.old at (moment_of date day t) result out.new }
{
    let c = text_calendar::date_after(date, day);
    let a = put_civil(out, at, c);
    let b = put_clock_behind(out, a, b'T', t);
    put_byte(out, b, b'Z')
}
