// The line of a flight's summary for people, up to the file's name: made of the date and of the twelve numbers of the whole flight, with one space between two fields, so that the lines
// of a season's files are a table.
#![tactic(auto)]

ghost use Rattle.text_pieces.specs.Buffer.{PiecePut};
ghost use Rattle.rules.specs.Listing.{shown_metres};
ghost use Rattle.text_twelve.specs.Twelve.{number, natural};
ghost use Rattle.text_summary.specs.Outline.{day_shown, when_shown, lasting_shown, times_shown, heights_shown, flight_shown, OutlinePut};

use rules::Date;
use text_box::put_box;
use text_dates::{put_date, put_two};
use text_pieces::{put_byte, put_decimal, put_shown, put_text};
use text_twelve::{is_none, lasted, natural_at, number_at};

// The number at a place.
fn put_number(out: &mut [u8], at: usize, list: &[i32], i: usize) -> usize
    ensures { PiecePut out.old at (shown_metres (number list.now i)) result out.new }
{
    text_listing::put_metres(out, at, number_at(list, i))
}

// The number of a day, where it is above 0.
fn put_day(out: &mut [u8], at: usize, day: u32) -> usize
    ensures { PiecePut out.old at (day_shown day) result out.new }
{
    if day == 0 {
        return at;
    }
    let a = put_byte(out, at, b'+');
    put_decimal(out, a, day as u64)
}

// A moment, of the places of its day and of its seconds: its time, and behind it its day.
fn put_when(out: &mut [u8], at: usize, list: &[i32], day: usize, seconds: usize) -> usize
    ensures { PiecePut out.old at (when_shown (natural (number list.now day)) (natural (number list.now seconds))) result out.new }
{
    let a = text_decimals::put_seconds(out, at, natural_at(list, seconds));
    put_day(out, a, natural_at(list, day))
}

// So many seconds, as H:MM:SS.
fn put_lasting(out: &mut [u8], at: usize, n: u64) -> usize
    ensures { PiecePut out.old at (lasting_shown n) result out.new }
{
    let a = put_shown(out, at, n / 3600);
    let b = put_two(out, a, b':', (n / 60 % 60) as u8);
    put_two(out, b, b':', (n % 60) as u8)
}

// The first and the last fix, and the time between them.
fn put_times(out: &mut [u8], at: usize, list: &[i32]) -> usize
    ensures { PiecePut out.old at (times_shown list.now) result out.new }
{
    let a = put_when(out, at, list, 1, 2);
    let b = put_when(out, a, list, 3, 4);
    put_lasting(out, b, lasted(list))
}

// The highest and the lowest.
fn put_heights(out: &mut [u8], at: usize, list: &[i32]) -> usize
    ensures { PiecePut out.old at (heights_shown list.now) result out.new }
{
    let a = put_number(out, at, list, 5);
    put_number(out, a, list, 6)
}

// What there is to tell of the fixes, or five dashes.
fn put_flight(out: &mut [u8], at: usize, list: &[i32]) -> usize
    ensures { PiecePut out.old at (flight_shown list.now) result out.new }
{
    if is_none(list, 0) {
        return put_text(out, at, b" - - - - -");
    }
    let a = put_times(out, at, list);
    put_heights(out, a, list)
}

// The line of a flight, of its date and the twelve numbers at the front of a list; a number that the list has not is 0. It is put at the start of a lent buffer: date, time of the first
// fix and of the last, duration, highest and lowest, number of fixes, least and greatest latitude, least and greatest longitude. Where there is no fix, or none that is marked A, dashes
// stand for what there is nothing to tell of. The answer is how many bytes that is; a full buffer takes no more.
pub fn line(date: Date, list: &[i32], out: &mut [u8]) -> usize
    ensures { OutlinePut date list.now out.old result out.new }
{
    let a = put_date(out, 0, date);
    let b = put_flight(out, a, list);
    let c = put_number(out, b, list, 0);
    put_box(out, c, list)
}
