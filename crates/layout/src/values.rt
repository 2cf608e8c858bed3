// A layout as a value: whether a line can tell it, and what it says of a line's length and columns.
ghost use Rattle.std.specs.Prelude.{◌-◌, ◌<◌, ◌≤◌, ◌≡◌, drop, get_or};
ghost use Rattle.rules.specs.Choice.{leads};
ghost use Rattle.rules.specs.Listed.{is_code_word, listed, unlisted};
ghost use Rattle.rules.specs.Layouts.{entries_of, empty_layout, with_entry, is_spelt, is_unused, all_placed, bit, word_from};
ghost use Rattle.rules.specs.Promises.{AllowedTest, LengthGiven, PresenceGiven};
ghost use Rattle.layout.specs.Parts.{EntryTest, LineLength};

use layout_coded::carries;
use layout_codes::listed_at;
use layout_entry::{empty_layout, placed};
use layout_family::first_start;
use rules::{Entry, Family, Layout, Presence, Reason, Refusal};

// Whether three code characters make this number.
#[tactic(auto, using(crate::proofs::Laws::not_code), unfolding(rules::specs::Listed::is_code_word))]
fn is_code_word(code: u32) -> bool
    ensures { result ≡ is_code_word code }
{
    let a = code / 65536;
    a <= 255
        && byte_chars::is_code(a as u8)
        && byte_chars::is_code((code / 256 % 256) as u8)
        && byte_chars::is_code((code % 256) as u8)
}

// Whether two digits each and three code characters can spell the entry.
#[tactic(auto, unfolding(rules::specs::Layouts::is_spelt))]
fn is_spelt(e: Entry) -> bool
    ensures { result ≡ is_spelt e }
{
    e.last <= 99 && is_code_word(e.code)
}

// Whether a line can tell the entry at `start`, behind those of a layout.
#[tactic(auto, using(crate::proofs::Laws::said_ok))]
fn follows(start: usize, before: Layout, e: Entry) -> bool
    ensures { EntryTest start before e result }
{
    is_spelt(e) && placed(start, before, e, 0).is_ok()
}

// One entry more, behind those that are there.
fn with_entry(l: Layout, e: Entry) -> Layout
    requires { l.count < 13 }
    ensures { result ≡ with_entry l e }
{
    let n = l.count;
    let mut next = l;
    next.entries[n] = e;
    next.count = n + 1;
    next
}

// Whether each entry follows those before it, the first one at `origin`.
fn all_placed(l: Layout, origin: usize) -> bool
    requires { l.count ≤ 13 }
    ensures { result ≡ all_placed (entries_of l) origin empty_layout }
{
    let mut before = empty_layout();
    let mut start = origin;
    for i in 0..l.count {
        let e = l.entries[i];
        if !follows(start, before, e) {
            return false;
        }
        before = with_entry(before, e);
        start = e.last as usize + 1;
    }
    true
}

// Whether an entry is all zero.
#[tactic(auto, unfolding(rules::specs::Layouts::is_unused))]
fn is_unused(e: Entry) -> bool
    ensures { result ≡ is_unused e }
{
    e.first == 0 && e.last == 0 && e.code == 0
}

// Whether the entries behind those that count are all zero.
fn rest_unused(l: Layout) -> bool
    requires { l.count ≤ 13 }
    ensures { result ≡ leads is_unused (13 - l.count) (drop l.count l.entries) }
{
    for i in l.count..13 {
        if !is_unused(l.entries[i]) {
            return false;
        }
    }
    true
}

// Whether a layout is allowed for a family: some line of 7 to 12 tells it.
#[tactic(auto, unfolding(rules::specs::Layouts::allowed))]
pub fn allowed(family: Family, l: Layout) -> bool
    ensures { AllowedTest family l result }
{
    l.count <= 13 && all_placed(l, first_start(family)) && rest_unused(l)
}

// How many bytes a line of the family has by a layout, allowed or not: up to the last column's last byte, or where there is none, 35 for B and 7 for K.
pub fn line_length(family: Family, l: Layout) -> u8
    ensures { LineLength family l result }
{
    let n = l.count;
    if n == 0 {
        return match family {
            Family::B => 35,
            Family::Extra(_) => 7,
        };
    }
    if 13 < n {
        return 0;
    }
    l.entries[n - 1].last
}

// How many bytes a line of the family has by a layout. 17 where the layout is not allowed.
pub fn length(family: Family, l: Layout) -> Result<usize, Refusal>
    ensures { LengthGiven family l result }
{
    if !allowed(family, l) {
        return Err(Refusal {
            reason: Reason::BadValue,
            line: 0,
            byte: 0,
        });
    }
    Ok(line_length(family, l) as usize)
}

// 1 where the layout carries the listed code of the number n, else 0.
fn bit_of(l: Layout, n: usize) -> u32
    ensures { result ≡ bit l (get_or listed n unlisted) }
{
    let row = listed_at(n);
    if carries(l, row.code) { 1 } else { 0 }
}

// The listed codes that a layout carries, as one word: bit n for the number n.
fn word(l: Layout) -> u32
    ensures { result ≡ word_from l listed 0 }
{
    let mut word: u32 = 0;
    for n in (0..15).rev() {
        word = word * 2 + bit_of(l, n);
    }
    word
}

// Which listed codes the layout of an I line carries, and how many. 17 where the layout is not allowed for B lines.
pub fn presence(l: Layout) -> Result<Presence, Refusal>
    ensures { PresenceGiven l result }
{
    if !allowed(Family::B, l) {
        return Err(Refusal {
            reason: Reason::BadValue,
            line: 0,
            byte: 0,
        });
    }
    let word = word(l);
    Ok(Presence {
        word,
        count: u32::count_ones(word),
    })
}
