// A date as people read it, put into a lent buffer: year, month and day.
#![tactic(auto)]

ghost use Rattle.text_pieces.specs.Buffer.{PiecePut};
ghost use Rattle.text_dates.specs.Dates.{two_digits, date_shown};

use rules::Date;
use text_pieces::{put_byte, put_decimal};

// A mark and a number below 100 with two digits, as in -07 and :05; of a greater one its last two.
pub fn put_two(out: &mut [u8], at: usize, mark: u8, n: u8) -> usize
    ensures { PiecePut out.old at (two_digits mark n) result out.new }
{
    let a = put_byte(out, at, mark);
    let b = put_byte(out, a, 48 + n / 10 % 10);
    put_byte(out, b, 48 + n % 10)
}

// A date such as 2024-07-15.
pub fn put_date(out: &mut [u8], at: usize, d: Date) -> usize
    ensures { PiecePut out.old at (date_shown d) result out.new }
{
    let a = put_decimal(out, at, d.year as u64);
    let b = put_two(out, a, b'-', d.month);
    put_two(out, b, b'-', d.day)
}
