// Whether entries can be those of a line that was read, for the look into them: at most 13, no code twice, each inside the line.
#![tactic(auto)]

ghost use Rattle.std.specs.Prelude.{◌+◌, ◌<◌, ◌≡◌, drop};
ghost use Rattle.rules.specs.Layouts.{entries_of};
ghost use Rattle.rules.specs.Looks.{carried_in, twice, is_inside, are_inside};
ghost use Rattle.layout_fitting.specs.Fitting.{FitsTest};

use rules::{Entry, Layout};

// Whether an entry behind place i has the code, places counted from 0.
fn again(es: Layout, i: usize, code: u32) -> bool
    requires { i < 13 }
    ensures { result ≡ carried_in (drop (i + 1) (entries_of es)) code }
{
    for j in i + 1..13 {
        if es.count <= j {
            return false;
        }
        if es.entries[j].code == code {
            return true;
        }
    }
    false
}

// Whether a code stands twice among the entries.
fn has_twice(es: Layout) -> bool
    ensures { result ≡ twice (entries_of es) }
{
    for (i, e) in es.entries.iter().enumerate() {
        if es.count <= i {
            return false;
        }
        if again(es, i, e.code) {
            return true;
        }
    }
    false
}

// Whether an entry stands inside a line of so many bytes, its last byte not before its first.
#[tactic(auto, unfolding(rules::specs::Looks::is_inside))]
fn is_inside(bytes: usize, e: Entry) -> bool
    ensures { result ≡ is_inside bytes e }
{
    1 <= e.first && e.first <= e.last && e.last as usize <= bytes
}

// Whether each entry does.
fn are_inside(bytes: usize, es: Layout) -> bool
    ensures { result ≡ are_inside bytes (entries_of es) }
{
    for (i, e) in es.entries.iter().enumerate() {
        if es.count <= i {
            return true;
        }
        if !is_inside(bytes, *e) {
            return false;
        }
    }
    true
}

// Whether the entries can be a line's: at most 13, no code twice, each inside the line with its last byte not before its first.
#[tactic(auto, unfolding(rules::specs::Looks::fits_line))]
pub fn fits(line: &[u8], es: Layout) -> bool
    ensures { FitsTest line.now es result }
{
    es.count <= 13 && !has_twice(es) && are_inside(line.len(), es)
}
