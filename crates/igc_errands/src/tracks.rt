// A file's track on standard output, in a form, sheet by sheet; or why the file is refused.
use igc_console::{fate_of, print_refusal};
use igc_fate::Fate;
use igc_host::Host;
use rules::{Date, Refusal, Seal};
use std::io;
use text_forms::Form;
use track_rules::Progress;

// What a track is printed as: lines for people, comma-separated values, GPX.
#[derive(Clone, Copy)]
pub(crate) enum Kind {
    Track,
    Csv,
    Gpx,
}

fn form_of(kind: Kind, date: Date) -> Form {
    match kind {
        Kind::Track => Form::Track,
        Kind::Csv => Form::Csv(date),
        Kind::Gpx => Form::Gpx(date),
    }
}

// Each sheet of the track, from the first to the last.
fn print_sheets<R: Host>(
    rt: &R,
    file: &[u8],
    form: Form,
    start: Progress,
    count: usize,
) -> io::Result<()> {
    let mut block = [0u8; 65536];
    let mut from = start;
    let mut left = count;
    // Each sheet tells how many fixes it leaves: the count goes down by as many as a sheet takes.
    while 0 < left {
        let sheet = text_stretch::fill(file, form, from, left, &mut block);
        let n = sheet.used;
        igc_console::write(rt, &block[..n])?;
        from = sheet.next;
        left = sheet.left;
    }
    Ok(())
}

// What stands before the first fix has at most 256 bytes.
fn print_front<R: Host>(rt: &R, form: Form) -> io::Result<()> {
    let mut text = [0u8; 256];
    let n = text_forms::put_front(&mut text, 0, form);
    igc_console::write(rt, &text[..n])
}

// What stands behind the last.
fn print_back<R: Host>(rt: &R, form: Form) -> io::Result<()> {
    let mut text = [0u8; 256];
    let n = text_forms::put_back(&mut text, 0, form);
    igc_console::write(rt, &text[..n])
}

// What stands before the first fix, the fixes, and what stands behind the last.
fn print_form<R: Host>(
    rt: &R,
    file: &[u8],
    form: Form,
    start: Progress,
    count: usize,
) -> io::Result<()> {
    print_front(rt, form)?;
    print_sheets(rt, file, form, start, count)?;
    print_back(rt, form)
}

// A file has no more fixes than bytes, so there is room for all of them.
pub(crate) fn print_track<R: Host>(rt: &R, file: &[u8], kind: Kind) -> Fate {
    let checked = check_file::check_untabled(Seal::Usual, file);
    let outcome = checked.outcome;
    let flight = checked.flight;
    let date = flight.date;
    match outcome {
        Err(why) => fate_of(rt, print_refusal(rt, file, why), Fate::Refused),
        Ok(()) => {
            let course = track_course::for_flight(flight, file.len());
            let start = course.start;
            fate_of(
                rt,
                print_form(rt, file, form_of(kind, date), start, course.count),
                Fate::Accepted,
            )
        }
    }
}
