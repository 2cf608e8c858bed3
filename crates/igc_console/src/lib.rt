// What igc and badge write, their answers on standard output and what is no answer on standard error; the words that they were started with, and a new file made.
#![tactic(auto)]

mod making;
mod words;

use igc_fate::Fate;
use igc_host::{Host, fail};
pub use making::{give_up, make, open_new, replace};
use rules::{Flight, Refusal};
use std::io;
pub use words::{Names, names_from, place_of, refuse_words, tell, verb_at};

const USAGE: [u8; 1000] = *b"\
    usage: igc [list] FILE...\n       igc check FILE...\n       igc track FILE...\n       igc summary FILE...\n       igc merge FIRST SECOND NEW\n       igc shelf SHELF add NUMBER FILE | list | get NUMBER | remove NUMBER | pack\n       igc help | version\n\
    list     each file's OK, FIX and COL lines, or why it is refused\n\
    check    one line a file: accepted, with its date and counts, or why it is refused\n\
    track    one line a fix: line, day, time, latitude and longitude in degrees, A or V, both altitudes\n\
    summary  one line a file: date, first and last fix, duration, highest, lowest, fixes, least and greatest latitude and longitude, name\n\
    merge    two copies of a file into NEW, with the evening notes of both; NEW must not exist\n\
    shelf    flights kept in one file: one added, all told, one written out or removed, the space before them closed; 768 zeros or more are an empty shelf\n\
    Behind -- every word is a file's name.\n\
    Status: 0 all accepted, 1 some file refused, 2 not all was read or written, or wrong words.\n\
";

// A text written on standard output: why not all of it was, if so, as everywhere here.
pub fn write<R: Print>(rt: &R, text: &[u8]) -> io::Result<()> {
    rt.write_all(text)
}

pub(crate) fn print_usage<R: Print>(rt: &R) -> io::Result<()> {
    rt.write_all(&USAGE)
}

// The help text on standard error.
pub(crate) fn say_usage<R: Host>(rt: &R) {
    let _ = rt.complain(&USAGE);
}

// What became of a file whose answer was written, or was not: then that is said, once, in these words.
pub fn fate_by<R: Host>(rt: &R, words: &[u8], written: io::Result<()>, fate: Fate) -> Fate {
    match written {
        Ok(()) => fate,
        Err(error) => {
            fail(rt, words, error);
            Fate::Unwritten
        }
    }
}

// The same, said by igc.
pub fn fate_of<R: Host>(rt: &R, written: io::Result<()>, fate: Fate) -> Fate {
    fate_by(rt, b"igc: the output could not be written", written, fate)
}

// The line before what is printed of a file, where there are several.
pub fn print_heading<R: Print>(rt: &R, name: &[u8]) -> io::Result<()> {
    let mut out = [0u8; 4608];
    let n = igc_notice::heading(name, &mut out);
    write(rt, &out[..n])
}

// A refusal explained, with no name before it.
pub fn print_refusal<R: Print>(rt: &R, file: &[u8], why: Refusal) -> io::Result<()> {
    let mut out = [0u8; 400];
    let n = text_explain::refused(file, why, &mut out);
    write(rt, &out[..n])
}

// There is room for two names.
pub fn print_refused<R: Print>(rt: &R, name: &[u8], file: &[u8], why: Refusal) -> io::Result<()> {
    let mut out = [0u8; 9216];
    let n = igc_notice::refused(name, file, why, &mut out);
    write(rt, &out[..n])
}

// Why two files are not merged, where that is of neither: it names no line.
pub fn print_unmerged<R: Print>(
    rt: &R,
    first: &[u8],
    second: &[u8],
    why: Refusal,
) -> io::Result<()> {
    let mut names = [0u8; 8704];
    let n = igc_notice::both(first, second, &mut names);
    print_refused(rt, &names[..n], b"", why)
}

pub fn print_noted<R: Print>(rt: &R, name: &[u8], notes: usize) -> io::Result<()> {
    let mut out = [0u8; 4608];
    let n = igc_notice::noted(name, notes, &mut out);
    write(rt, &out[..n])
}

pub fn print_accepted<R: Print>(rt: &R, name: &[u8], flight: Flight) -> io::Result<()> {
    let mut out = [0u8; 4608];
    let n = igc_notice::accepted(name, flight, &mut out);
    write(rt, &out[..n])
}

// A line of a table: a text, and the file's name at its end.
pub fn print_tabled<R: Print>(rt: &R, text: &[u8], name: &[u8]) -> io::Result<()> {
    let mut out = [0u8; 4608];
    let n = igc_notice::tabled(text, name, &mut out);
    write(rt, &out[..n])
}

// The line of a file in the badge list.
pub fn print_fit<R: Print>(rt: &R, name: &[u8], flight: Flight, file: &[u8]) -> io::Result<()> {
    let mut out = [0u8; 4608];
    let n = igc_notice::fit(name, flight, file, &mut out);
    write(rt, &out[..n])
}

// What failed, with what the system says of it.
fn say_failed<R: Host>(rt: &R, name: &[u8], what: &[u8], error: io::Error) {
    let mut out = [0u8; 4608];
    let n = igc_notice::failed(name, what, &mut out);
    fail(rt, &out[..n], error);
}

pub fn say_unopened<R: Host>(rt: &R, name: &[u8], error: io::Error) {
    say_failed(rt, name, b"cannot be opened", error);
}

pub(crate) fn say_unmade<R: Host>(rt: &R, name: &[u8], error: io::Error) {
    say_failed(rt, name, b"cannot be made", error);
}

pub(crate) fn say_unfilled<R: Host>(rt: &R, name: &[u8], error: io::Error) {
    say_failed(rt, name, b"cannot be written whole", error);
}

pub(crate) fn say_unplaced<R: Host>(rt: &R, name: &[u8], error: io::Error) {
    say_failed(rt, name, b"cannot be replaced", error);
}

pub(crate) fn say_left<R: Host>(rt: &R, name: &[u8], error: io::Error) {
    say_failed(rt, name, b"what was written of it cannot be removed", error);
}

pub fn say_unread<R: Host>(rt: &R, name: &[u8]) {
    let mut out = [0u8; 4608];
    let n = igc_notice::failed(name, b"cannot be read to its end\n", &mut out);
    let _ = rt.complain(&out[..n]);
}
