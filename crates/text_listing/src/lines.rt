// The lines that the listing prints, each put together from its pieces.
ghost use Rattle.std.specs.Prelude.{◌≤◌, ◌≡◌};
ghost use Rattle.rules.specs.Layouts.{line_length, column_text, span_of};
ghost use Rattle.rules.specs.Listing.{refused_text, fix_shown, column_shown};
ghost use Rattle.text_pieces.specs.Buffer.{PiecePut};
ghost use Rattle.text_listing.specs.Lines.{column_line, counted, two_shown, ok_numbers, position_shown, fix_places, heights_line};

use crate::values::{put_letter, put_metres};
use rules::{Counts, Entry, FixFields, Height, Layout, Position};
use text_pieces::{put_byte, put_shown, put_text};

// A word and three numbers, with which a line begins.
fn put_counted(out: &mut [u8], at: usize, word: &[u8], a: u64, b: u64, c: u64) -> usize
    ensures { PiecePut out.old at (counted word.now a b c) result out.new }
{
    let x = put_text(out, at, word);
    let y = put_shown(out, x, a);
    let z = put_shown(out, y, b);
    put_shown(out, z, c)
}

// A refusal's line.
pub(crate) fn put_refusal(out: &mut [u8], number: u8, line: u32, byte: u32) -> usize
    ensures { PiecePut out.old 0 (refused_text number line byte) result out.new }
{
    let a = put_counted(out, 0, b"REFUSED", number as u64, line as u64, byte as u64);
    put_byte(out, a, b'\n')
}

// How many bytes a line of a layout has whose first column starts at a place.
pub(crate) fn line_length(start: usize, l: Layout) -> usize
    requires { 1 ≤ start }
    ensures { result ≡ line_length start l }
{
    let n = l.count;
    if n == 0 {
        return start - 1;
    }
    match l.entries.get(n - 1) {
        Some(e) => e.last as usize,
        None => 0,
    }
}

// Two numbers.
fn put_two(out: &mut [u8], at: usize, a: u64, b: u64) -> usize
    ensures { PiecePut out.old at (two_shown a b) result out.new }
{
    let x = put_shown(out, at, a);
    put_shown(out, x, b)
}

// The line of a file that is accepted: its counts of lines, of B and of K lines, the lengths of these, and the count and the length of N lines.
pub(crate) fn put_flight(
    out: &mut [u8],
    lines: u32,
    counts: Counts,
    b: usize,
    k: usize,
    n: usize,
) -> usize
    ensures { PiecePut out.old 0 (ok_numbers lines counts b k n) result out.new }
{
    let c = put_counted(
        out,
        0,
        b"OK",
        lines as u64,
        counts.b as u64,
        counts.k as u64,
    );
    let d = put_two(out, c, b as u64, k as u64);
    let e = put_two(out, d, counts.n as u64, n as u64);
    put_byte(out, e, b'\n')
}

// A latitude or a longitude with its letter.
fn put_position(out: &mut [u8], at: usize, p: Position) -> usize
    ensures { PiecePut out.old at (position_shown p) result out.new }
{
    let a = put_shown(out, at, p.count);
    put_letter(out, a, p.letter)
}

// A fix's line up to its position.
fn put_places(out: &mut [u8], at: usize, line: u32, f: FixFields) -> usize
    ensures { PiecePut out.old at (fix_places line f) result out.new }
{
    let a = put_counted(out, at, b"FIX", line as u64, f.time as u64, f.lat.count);
    let b = put_letter(out, a, f.lat.letter);
    put_position(out, b, f.lon)
}

// The end of a fix's line: its validity and both altitudes.
pub fn put_heights(out: &mut [u8], at: usize, validity: u8, pressure: Height, gnss: Height) -> usize
    ensures { PiecePut out.old at (heights_line validity pressure.metres gnss.metres) result out.new }
{
    let a = put_letter(out, at, validity);
    let b = put_metres(out, a, pressure);
    let c = put_metres(out, b, gnss);
    put_byte(out, c, b'\n')
}

// A fix's line, from a place of the buffer on.
pub fn put_fix(out: &mut [u8], at: usize, line: u32, f: FixFields) -> usize
    ensures { PiecePut out.old at (fix_shown line f) result out.new }
{
    let a = put_places(out, at, line, f);
    put_heights(out, a, f.validity, f.pressure, f.gnss)
}

// The text of a column: as much of it as the line has.
fn column_text(line: &[u8], e: Entry) -> &[u8]
    ensures { result.now ≡ column_text line.now (span_of e) }
{
    let from = e.first.saturating_sub(1) as usize;
    let to = (e.last as usize).min(line.len());
    line.get(from..to).unwrap_or_default()
}

// A column's line, where the code is three bytes.
fn put_spelt(out: &mut [u8], at: usize, line: &[u8], e: Entry) -> usize
    requires { e.code ≤ 0xFFFFFF }
    ensures { PiecePut out.old at (column_shown line.now e) result out.new }
{
    let code = e.code;
    let head = [
        b'C',
        b'O',
        b'L',
        b' ',
        (code / 65536) as u8,
        (code / 256 % 256) as u8,
        (code % 256) as u8,
        b' ',
    ];
    let a = put_text(out, at, &head);
    let b = put_text(out, a, column_text(line, e));
    put_byte(out, b, b'\n')
}

// A column's line, from a place of the buffer on; nothing where the code is no three bytes.
pub fn put_column(out: &mut [u8], at: usize, line: &[u8], e: Entry) -> usize
    ensures { PiecePut out.old at (column_line line.now e) result out.new }
{
    if 0xFFFFFF < e.code {
        return at;
    }
    put_spelt(out, at, line, e)
}
