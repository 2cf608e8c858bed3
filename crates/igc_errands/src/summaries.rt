// A file's summary on standard output: one line, with the file's name at its end; or why the file is refused.
use igc_console::{fate_of, print_refused};
use igc_fate::Fate;
use igc_host::Host;
use rules::{Date, Refusal};
use std::io;

// The line of an accepted file: a line has at most 320 bytes before the name.
fn print_line<R: Host>(rt: &R, name: &[u8], date: Date, list: &[i32]) -> io::Result<()> {
    let mut text = [0u8; 320];
    let n = text_summary::line(date, list, &mut text);
    igc_console::print_tabled(rt, &text[..n], name)
}

// The most that an accepted file has is 453,437 fixes, since a B line has at least 37 bytes with its ending: 1,772 runs, and 12 numbers for the whole and for each of them.
pub(crate) fn print_summary<R: Host>(rt: &R, name: &[u8], file: &[u8]) -> Fate {
    let mut list = [0i32; 21276];
    let made = summary::with_date(file, 0, &mut list);
    match made.answer {
        Err(why) => fate_of(rt, print_refused(rt, name, file, why), Fate::Refused),
        Ok(_) => fate_of(rt, print_line(rt, name, made.date, &list), Fate::Accepted),
    }
}
