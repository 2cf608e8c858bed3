// The entries of a layout: one held against those before it, and one read at its place of an I, a J or an M line.
#![tactic(auto)]

ghost use Rattle.std.specs.Prelude.{◌≤◌, ◌≡◌};
ghost use Rattle.layout_entry.specs.Parts.{refusal_at, is_among, coded_by, EntryPlaced, PlacedBehind, CodeGiven, EntryGiven};

use rules::{Entry, Layout, Reason, Refusal};
pub use rules_values::empty_layout;

// A refusal of the line in hand, at a byte of it.
fn refusal_at(reason: Reason, byte: u32) -> Refusal
    ensures { result ≡ refusal_at reason byte }
{
    Refusal {
        reason,
        line: 0,
        byte,
    }
}

// An entry that has to start at `start`, behind others, of which it is known whether one has its code; refusals at the byte `first`.
fn behind(start: usize, again: bool, e: Entry, first: u32) -> Result<Entry, Refusal>
    ensures { PlacedBehind start again e first result }
{
    if e.first as usize != start {
        return Err(refusal_at(Reason::Tile, first));
    }
    if e.last < e.first {
        return Err(refusal_at(Reason::Tile, first));
    }
    if again {
        return Err(refusal_at(Reason::Twice, first));
    }
    if !layout_codes::width_fits(e.code, (e.last - e.first) as usize + 1) {
        return Err(refusal_at(Reason::Width, first));
    }
    Ok(e)
}

// An entry that has to start at `start`, behind those of a layout, refusals at the byte `first`: 10 where it does not start there or ends before it starts,
// 11 where its code was there before, 12 where its code is listed and its width is wrong.
pub fn placed(start: usize, before: Layout, e: Entry, first: u32) -> Result<Entry, Refusal>
    ensures { EntryPlaced start before e first result }
{
    behind(start, layout_coded::carries(before, e.code), e, first)
}

// Whether a code is among the first n of a list.
fn is_among(codes: &[u32], n: usize, code: u32) -> bool
    ensures { result ≡ is_among codes.now n code }
{
    for (i, c) in codes.iter().enumerate() {
        if n <= i {
            return false;
        }
        if *c == code {
            return true;
        }
    }
    false
}

// The code at a place of a line; none where not three code characters stand there.
fn code_at(line: &[u8], at: usize) -> Option<u32>
    requires { at ≤ 2000 }
    ensures { CodeGiven line.now at result }
{
    if !byte_chars::codes_at(line, at, 3) {
        return None;
    }
    Some(layout_codes::pack(
        byte_chars::byte(line, at),
        byte_chars::byte(line, at + 1),
        byte_chars::byte(line, at + 2),
    ))
}

// The entry of a line behind i others, whose codes are the first i of a list, and that has to start at `start`. 9 at the first byte of SS, FF or CCC, whichever
// breaks its rule first; then 10, 11 and 12 at the entry's first byte. The codes are borrowed: a layout would be copied at each call.
pub fn entry_at(line: &[u8], i: u8, start: usize, codes: &[u32]) -> Result<Entry, Refusal>
    ensures { EntryGiven line.now i start (coded_by codes.now i) result }
{
    let at = 3 + 7 * (i as usize);
    let Some(ss) = byte_number::digits(line, at, 2) else {
        return Err(refusal_at(Reason::Form, at as u32 + 1));
    };
    let Some(ff) = byte_number::digits(line, at + 2, 2) else {
        return Err(refusal_at(Reason::Form, at as u32 + 3));
    };
    let Some(code) = code_at(line, at + 4) else {
        return Err(refusal_at(Reason::Form, at as u32 + 5));
    };
    let first = ss as u8;
    let last = ff as u8;
    let again = is_among(codes, i as usize, code);
    behind(start, again, Entry { first, last, code }, at as u32 + 1)
}
