// Lists a file on standard output: its counts, each fix and its columns; or why it is refused. What is printed is made by `begin`, `text_block` and `text_listing`, and written here.
// Each function writes all that it prints, or stops at the first write that fails and answers why.
#![tactic(auto)]

mod first;
mod input;

pub use first::{Begun, begin};
pub use input::is_at_end;
use rules::{Entry, FixFields, Flight, Layout, Refusal, Seal};
use std::io;

// REFUSED, the number, the line and the byte.
pub fn print_refusal<R: Print>(rt: &R, why: Refusal) -> io::Result<()> {
    let mut out = [0u8; 288];
    let n = text_listing::refused(why, &mut out);
    rt.write_all(&out[..n])
}

fn print_ok<R: Print>(rt: &R, flight: Flight) -> io::Result<()> {
    let mut out = [0u8; 288];
    let n = text_listing::ok(flight, &mut out);
    rt.write_all(&out[..n])
}

// FIX, a line's number and the values of its fix.
pub fn print_fix<R: Print>(rt: &R, line: u32, f: FixFields) -> io::Result<()> {
    let mut out = [0u8; 288];
    let n = text_listing::fix(line, f, &mut out);
    rt.write_all(&out[..n])
}

fn print_column<R: Print>(rt: &R, line: &[u8], e: Entry) -> io::Result<()> {
    let mut out = [0u8; 288];
    let n = text_listing::column(line, e, &mut out);
    rt.write_all(&out[..n])
}

// COL, a code and its text, for each entry of a layout.
pub fn print_columns<R: Print>(rt: &R, line: &[u8], layout: Layout) -> io::Result<()> {
    for e in &layout.entries[..layout.count.min(13)] {
        print_column(rt, line, *e)?;
    }
    Ok(())
}

// Each page of the file, from the first to the last; each passes a line at least.
fn print_pages<R: Print>(
    rt: &R,
    file: &[u8],
    table: &[u32],
    lines: u32,
    layout: Layout,
) -> io::Result<()> {
    let mut block = [0u8; 65536];
    let mut passed = 0;
    for _ in 0..lines {
        if lines <= passed {
            return Ok(());
        }
        let page = text_block::fill(passed, file, table, lines, layout, &mut block);
        rt.write_all(&block[..page.used])?;
        passed = page.passed;
    }
    Ok(())
}

// The listing of an accepted file, by its table and what the check said of it.
pub fn print_accepted<R: Print>(
    rt: &R,
    file: &[u8],
    table: &[u32],
    flight: Flight,
) -> io::Result<()> {
    print_ok(rt, flight)?;
    print_pages(rt, file, table, flight.lines, flight.layouts.b)
}

// Lists a file of at most 65,536 bytes, by the usual check; a longer one is INPUT_OVER.
pub fn list<R: Print>(rt: &R, file: &[u8]) -> io::Result<()> {
    let mut table = [0u32; 16384];
    let mut out = [0u8; 288];
    let begun = first::begin(Seal::Usual, 65536, file, &mut table, &mut out);
    rt.write_all(&out[..begun.count])?;
    print_pages(rt, file, &table, begun.lines, begun.layout)
}
