// The lines that the listing program prints, each put at the start of a lent buffer that has room for the longest of them.
#![tactic(auto)]

mod lines;
mod values;

ghost use Rattle.text_listing.specs.Lines.{RefusalShown, FlightShown, FixShown, ColumnShown};

use lines::{line_length, put_flight, put_refusal};
pub use lines::{put_column, put_fix, put_heights};
use rules::{Entry, FixFields, Flight, Refusal};
pub use values::{put_height, put_letter, put_metres};

// REFUSED, the refusal's number, its line and its byte: how many bytes the line has.
pub fn refused(why: Refusal, out: &mut [u8; 288]) -> usize
    ensures { RefusalShown why out.old result out.new }
{
    let number = text_refusal::number(why.reason);
    put_refusal(out, number, why.line, why.byte)
}

// OK, the counts of lines, of B lines and of K lines, the lengths of B and of K lines, and the count and the length of N lines: how many bytes the line has.
pub fn ok(f: Flight, out: &mut [u8; 288]) -> usize
    ensures { FlightShown f out.old result out.new }
{
    let b = line_length(36, f.layouts.b);
    let k = line_length(8, f.layouts.k);
    let n = line_length(8, f.layouts.n);
    put_flight(out, f.lines, f.counts, b, k, n)
}

// FIX and what the B line of that number says before its columns: how many bytes the line has.
pub fn fix(line: u32, f: FixFields, out: &mut [u8; 288]) -> usize
    ensures { FixShown line f out.old result out.new }
{
    put_fix(out, 0, line, f)
}

// COL, a column's code and its text in a line: how many bytes the line has. 0, and nothing is put, where the code is no three bytes.
pub fn column(line: &[u8], e: Entry, out: &mut [u8; 288]) -> usize
    ensures { ColumnShown line.now e out.old result out.new }
{
    put_column(out, 0, line, e)
}
