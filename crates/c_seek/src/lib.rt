// A code sought among the numbers that tell the entries of a line, where they stand: the first and last byte of its entry.
#![tactic(auto)]

ghost use Rattle.std.specs.Prelude.{◌+◌, ◌*◌, ◌≤◌, ◌≡◌, length, get_or};
ghost use Rattle.rules.specs.Refusals.{says, no, result_told};
ghost use Rattle.c_entries.specs.Lent.{entries_size};
ghost use Rattle.c_seek.specs.Parts.{stands_in, place_in, is_in, fit_in, span_in, ColumnSought};

use c_entries::ENTRIES;
use rules::{Reason, Refusal, Span};

// Whether the entry behind `at` numbers can be one of a line of so many bytes: its numbers are such as an entry holds, and it stands inside the line.
#[tactic(auto, unfolding(crate::specs::Parts::stands_in, rules::specs::Looks::is_inside))]
fn stands(list: &[u64], at: usize, bytes: usize) -> bool
    requires { at + 3 ≤ length list.now }
    ensures { result ≡ stands_in bytes list.now at }
{
    let code = list[at];
    let first = list[at + 1];
    let last = list[at + 2];
    code <= 4294967295
        && first <= 255
        && last <= 255
        && 1 <= first
        && first <= last
        && last as usize <= bytes
}

// How many numbers stand before the first entry of a code, among so many entries from `start` numbers on.
fn place(list: &[u64], start: usize, count: usize, code: u64) -> Option<usize>
    requires { (start + 3 * count ≤ entries_size) × (length list.now ≡ entries_size) }
    ensures { result ≡ place_in count list.now start code }
{
    let mut at = start;
    // The place goes on by three numbers while the count goes down by one.
    let mut left = count;
    while 0 < left {
        if list[at] == code {
            return Some(at);
        }
        at += 3;
        left -= 1;
    }
    None
}

// Whether there is one.
fn is_in(list: &[u64], start: usize, count: usize, code: u64) -> bool
    requires { (start + 3 * count ≤ entries_size) × (length list.now ≡ entries_size) }
    ensures { result ≡ is_in count list.now start code }
{
    place(list, start, count, code).is_some()
}

// Whether each entry stands inside a line of so many bytes, and no code comes twice.
fn fits(list: &[u64], count: usize, bytes: usize) -> bool
    requires { (count ≤ 13) × (length list.now ≡ entries_size) }
    ensures { result ≡ fit_in bytes count list.now 1 }
{
    let mut at = 1;
    // The place goes on by three numbers while the count, which is_in is asked with, goes down by one.
    let mut left = count;
    while 0 < left {
        if !stands(list, at, bytes) {
            return false;
        }
        let code = list[at];
        if is_in(list, at + 3, left - 1, code) {
            return false;
        }
        at += 3;
        left -= 1;
    }
    true
}

// The first and last byte of the entry behind `at` numbers.
fn span(list: &[u64], at: usize) -> Result<Span, Refusal>
    requires { (at + 3 ≤ length list.now) × (get_or list.now (at + 1) 0 ≤ 255) × (get_or list.now (at + 2) 0 ≤ 255) }
    ensures { result_told result ≡ says (span_in list.now at) }
{
    let first = list[at + 1] as u8;
    let last = list[at + 2] as u8;
    Ok(Span { first, last })
}

// No column.
fn refuse(reason: Reason) -> Result<Span, Refusal>
    ensures { result_told result ≡ no reason 0 }
{
    Err(Refusal {
        reason,
        line: 0,
        byte: 0,
    })
}

// Where the column of a packed code stands in a line of `bytes` bytes: the first and the last byte of its entry, counted from 1. 17 where the list has not 40 numbers, for over 13
// entries, a number past what an entry holds, a code twice, or an entry that is not inside the line or ends before it starts; then 19 where no entry has the code.
pub fn column(bytes: usize, list: &[u64], code: u64) -> Result<Span, Refusal>
    ensures { ColumnSought bytes list.now code result }
{
    if list.len() != ENTRIES {
        return refuse(Reason::BadValue);
    }
    if 13 < list[0] {
        return refuse(Reason::BadValue);
    }
    let count = list[0] as usize;
    if !fits(list, count, bytes) {
        return refuse(Reason::BadValue);
    }
    let Some(at) = place(list, 1, count, code) else {
        return refuse(Reason::Absent);
    };
    span(list, at)
}
