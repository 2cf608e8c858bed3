// What a line says by its layout, and the layout itself, in the numbers of an answer.
ghost use Rattle.rules.specs.Refusals.{result_told};
ghost use Rattle.std.specs.Prelude.{◌≡◌};
ghost use Rattle.c_answers.specs.Answers.{accepting, in_numbers};
ghost use Rattle.c_columns.specs.Values.{span_numbers, signed_numbers, entry_numbers};

use c_answers::{Numbers, accepted, between, refused};
use rules::{Entry, Refusal, Signed, Span};

// Where a column's text stands, of the places of its first and last byte.
fn span(first: usize, last: usize) -> Numbers
    ensures { result ≡ accepting (span_numbers (record { first = first; last = last })) }
{
    let start = between(1, first);
    let length = between(start as usize, last);
    accepted(&[start, length])
}

pub(crate) fn column(read: Result<Span, Refusal>) -> Numbers
    ensures { result ≡ in_numbers span_numbers (result_told read) }
{
    match read {
        Ok(Span { first, last }) => span(first as usize, last as usize),
        Err(why) => refused(why),
    }
}

// A column's number stands beside the answer, which names no value.
pub(crate) fn signed(read: Result<Signed, Refusal>) -> Numbers
    ensures { result ≡ in_numbers signed_numbers (result_told read) }
{
    match read {
        Ok(_) => accepted(&[]),
        Err(why) => refused(why),
    }
}

// A column of a layout: the three characters of its code, and its places.
fn entry_values(e: Entry) -> Numbers
    ensures { result ≡ accepting (entry_numbers e) }
{
    let code = e.code as u64;
    let first = e.first as u64;
    let last = e.last as u64;
    accepted(&[code / 65536, code / 256 % 256, code % 256, first, last])
}

pub(crate) fn entry(read: Result<Entry, Refusal>) -> Numbers
    ensures { result ≡ in_numbers entry_numbers (result_told read) }
{
    match read {
        Ok(e) => entry_values(e),
        Err(why) => refused(why),
    }
}
