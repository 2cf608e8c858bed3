// The text of a track for people: one line for each fix, which a spreadsheet and gnuplot read as it is.
#![tactic(auto)]

ghost use Rattle.text_pieces.specs.Buffer.{PiecePut};
ghost use Rattle.text_track.specs.Trail.{moment_shown, record_shown};

use rules::{FineTime, Fix};
use text_decimals::{put_clock, put_degrees};
use text_listing::put_heights;
use text_pieces::{put_decimal, put_shown};

// The beginning of a record's line: its line number, its day and its time.
fn put_moment(out: &mut [u8], at: usize, line: u32, day: u32, t: FineTime) -> usize
    ensures { PiecePut out.old at (moment_shown line day t) result out.new }
{
    let a = put_decimal(out, at, line as u64);
    let b = put_shown(out, a, day as u64);
    put_clock(out, b, t)
}

// A record's line, from a place of the buffer on: its line number, its day and what its fix says. The answer is the place behind it; a full buffer takes no more.
pub fn put_record(out: &mut [u8], at: usize, line: u32, day: u32, f: Fix) -> usize
    ensures { PiecePut out.old at (record_shown line day f) result out.new }
{
    let a = put_moment(out, at, line, day, f.time);
    let b = put_degrees(out, a, f.lat);
    let c = put_degrees(out, b, f.lon);
    put_heights(out, c, f.validity, f.pressure, f.gnss)
}
