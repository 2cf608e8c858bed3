// What the programs say of a file by its name: the heading of its listing, the line of its check, its line in the badge list, its line in a table, its refusal explained, its notes counted, why it was not read. Each is put at the
// start of a lent buffer, and the answer is how many bytes that is; a full buffer takes no more.
#![tactic(auto)]

ghost use Rattle.text_pieces.specs.Buffer.{PiecePut};
ghost use Rattle.igc_notice.specs.Notice.{name_shown, counted, counts_shown, extras_shown, signed_shown, accepted_shown, recorder_shown, flown_shown, fit_shown, HeadingPut, AcceptedPut, FitPut, RefusedPut, FailedPut, BothPut, BesidePut, NotedPut, TabledPut};

use rules::{Counts, Flight, Refusal};
use text_dates::put_date;
use text_pieces::{put_byte, put_shown, put_text};

fn put_name(out: &mut [u8], at: usize, name: &[u8]) -> usize
    ensures { PiecePut out.old at (name_shown name.now) result out.new }
{
    if name.len() == 0 {
        return put_text(out, at, b"(no name, or one over 4,096 bytes)");
    }
    put_text(out, at, name)
}

fn put_counted(out: &mut [u8], at: usize, word: &[u8], n: u32) -> usize
    ensures { PiecePut out.old at (counted word.now n) result out.new }
{
    let next = put_text(out, at, word);
    put_shown(out, next, n as u64)
}

fn put_extras(out: &mut [u8], at: usize, counts: Counts) -> usize
    ensures { PiecePut out.old at (extras_shown counts) result out.new }
{
    let a = put_counted(out, at, b", K lines", counts.k);
    put_counted(out, a, b", N lines", counts.n)
}

fn put_counts(out: &mut [u8], at: usize, lines: u32, counts: Counts) -> usize
    ensures { PiecePut out.old at (counts_shown lines counts) result out.new }
{
    let a = put_counted(out, at, b", lines", lines);
    let b = put_counted(out, a, b", fixes", counts.b);
    put_extras(out, b, counts)
}

fn put_signed(out: &mut [u8], at: usize, signed: bool) -> usize
    ensures { PiecePut out.old at (signed_shown signed) result out.new }
{
    if signed {
        return put_text(out, at, b", signed\n");
    }
    put_text(out, at, b", not signed\n")
}

fn put_accepted(out: &mut [u8], at: usize, f: Flight) -> usize
    ensures { PiecePut out.old at (accepted_shown f) result out.new }
{
    let date = f.date;
    let counts = f.counts;
    let a = put_text(out, at, b": accepted, ");
    let b = put_date(out, a, date);
    let c = put_counts(out, b, f.lines, counts);
    put_signed(out, c, f.signed)
}

fn put_recorder(out: &mut [u8], at: usize, file: &[u8]) -> usize
    ensures { PiecePut out.old at (recorder_shown file.now) result out.new }
{
    if file.len() < 7 {
        return put_text(out, at, b", no recorder");
    }
    let next = put_text(out, at, b", recorder ");
    put_text(out, next, &file[1..7])
}

fn put_flown(out: &mut [u8], at: usize, fixes: u32, signed: bool) -> usize
    ensures { PiecePut out.old at (flown_shown fixes signed) result out.new }
{
    let next = put_counted(out, at, b", fixes", fixes);
    put_signed(out, next, signed)
}

fn put_fit(out: &mut [u8], at: usize, f: Flight, file: &[u8]) -> usize
    ensures { PiecePut out.old at (fit_shown f file.now) result out.new }
{
    let date = f.date;
    let a = put_text(out, at, b": ");
    let b = put_date(out, a, date);
    let c = put_recorder(out, b, file);
    put_flown(out, c, f.counts.b, f.signed)
}

// The line before what is printed of a file, where there are several.
pub fn heading(name: &[u8], out: &mut [u8]) -> usize
    ensures { HeadingPut name.now out.old result out.new }
{
    let a = put_text(out, 0, b"== ");
    let b = put_name(out, a, name);
    put_byte(out, b, b'\n')
}

// The line of an accepted file: its date, how many lines, fixes, K and N lines it has, and whether it is signed.
pub fn accepted(name: &[u8], f: Flight, out: &mut [u8]) -> usize
    ensures { AcceptedPut name.now f out.old result out.new }
{
    let next = put_name(out, 0, name);
    put_accepted(out, next, f)
}

// The line of a file in the badge list: its date, its recorder, how many fixes it has, and whether it is signed.
pub fn fit(name: &[u8], f: Flight, file: &[u8], out: &mut [u8]) -> usize
    ensures { FitPut name.now f file.now out.old result out.new }
{
    let next = put_name(out, 0, name);
    put_fit(out, next, f, file)
}

// A refused file's name, and behind it the refusal explained.
pub fn refused(name: &[u8], file: &[u8], why: Refusal, out: &mut [u8]) -> usize
    ensures { RefusedPut name.now file.now why out.old result out.new }
{
    let mut text = [0u8; 400];
    let n = text_explain::refused(file, why, &mut text);
    let a = put_name(out, 0, name);
    let b = put_text(out, a, b": ");
    put_text(out, b, &text[..n])
}

// A file's name, and behind it why it was not read.
pub fn failed(name: &[u8], why: &[u8], out: &mut [u8]) -> usize
    ensures { FailedPut name.now why.now out.old result out.new }
{
    let a = put_name(out, 0, name);
    let b = put_text(out, a, b": ");
    put_text(out, b, why)
}

// The names of two files, for what is said of both.
pub fn both(first: &[u8], second: &[u8], out: &mut [u8]) -> usize
    ensures { BothPut first.now second.now out.old result out.new }
{
    let a = put_name(out, 0, first);
    let b = put_text(out, a, b" and ");
    put_name(out, b, second)
}

// The name of the new file that a changed one is first written to: it stands beside it.
pub fn beside(name: &[u8], out: &mut [u8]) -> usize
    ensures { BesidePut name.now out.old result out.new }
{
    let a = put_text(out, 0, name);
    put_text(out, a, b".new")
}

// A file's name, and behind it how many notes it has.
pub fn noted(name: &[u8], notes: usize, out: &mut [u8]) -> usize
    ensures { NotedPut name.now notes out.old result out.new }
{
    let a = put_name(out, 0, name);
    let b = put_text(out, a, b": notes");
    let c = put_shown(out, b, notes as u64);
    put_byte(out, c, b'\n')
}

// A text of a file, and behind it the file's name, at the end of the line, since there may be spaces in it.
pub fn tabled(text: &[u8], name: &[u8], out: &mut [u8]) -> usize
    ensures { TabledPut text.now name.now out.old result out.new }
{
    let a = put_text(out, 0, text);
    let b = put_byte(out, a, b' ');
    let c = put_name(out, b, name);
    put_byte(out, c, b'\n')
}
