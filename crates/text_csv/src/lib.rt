// A track as comma-separated values, put into a lent buffer: the line of names, and a fix's line.
#![tactic(auto)]

ghost use Rattle.text_pieces.specs.Buffer.{PiecePut};
ghost use Rattle.text_csv.specs.Rows.{names_shown, rest_shown, row_shown};

use rules::{Date, Fix};
use text_decimals::put_degrees_behind;
use text_instant::{put_height, put_instant};
use text_pieces::{put_byte, put_text};

// The first line, the names of the fields. The answer is the place behind it; a full buffer takes no more.
pub fn put_names(out: &mut [u8], at: usize) -> usize
    ensures { PiecePut out.old at names_shown result out.new }
{
    put_text(out, at, b"time,latitude,longitude,validity,pressure,gnss\n")
}

// The end of a fix's line: its validity and both altitudes.
fn put_rest(out: &mut [u8], at: usize, f: Fix) -> usize
    ensures { PiecePut out.old at (rest_shown f) result out.new }
{
    let a = put_byte(out, at, b',');
    let b = put_byte(out, a, f.validity);
    let c = put_height(out, b, b',', f.pressure);
    let d = put_height(out, c, b',', f.gnss);
    put_byte(out, d, b'\n')
}

// The line of a fix on a day that is counted from a date. The answer is the place behind it; a full buffer takes no more.
pub fn put_row(out: &mut [u8], at: usize, date: Date, day: u32, f: Fix) -> usize
    ensures { PiecePut out.old at (row_shown date day f) result out.new }
{
    let a = put_instant(out, at, date, day, f.time);
    let b = put_degrees_behind(out, a, b',', f.lat);
    let c = put_degrees_behind(out, b, b',', f.lon);
    put_rest(out, c, f)
}
