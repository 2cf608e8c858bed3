// The columns of a B, a K or an N line, which are the line's tail, held against the layout.
ghost use Rattle.std.specs.Prelude.{true, false, ◌≡◌, ◌+◌, ◌-◌, ◌≤◌};
ghost use Rattle.rules.specs.Families.{first_start};
ghost use Rattle.rules.specs.Choice.{given, part};
ghost use Rattle.rules.specs.Listed.{keeps_limit};
ghost use Rattle.rules.specs.Limits.{bad_tail, good_tail};

use rules::{AtLimit, Entry, Family, Layout};
use write_values::is_clean;

// A byte of the line as a byte of its tail, counted from 1; 0 for one before the tail.
pub(crate) fn in_tail(start: u8, n: u8) -> u8
    requires { 1 ≤ start }
    ensures { result ≡ n + 1 - start }
{
    if n < start {
        return 0;
    }
    n - start + 1
}

// Whether the column of an entry keeps the rule of its code, in a line that has these coordinates at their limits.
fn keeps(start: u8, tail: &[u8], e: Entry, at: AtLimit) -> bool
    requires { 1 ≤ start }
    ensures { result ≡ keeps_limit at e.code (part (e.first - start) (e.last + 1 - start) tail.now) }
{
    let first = in_tail(start, e.first);
    let last = in_tail(start, e.last);
    layout_codes::keeps_limit(at, e.code, layout_column::text_of(tail, first, last))
}

// Whether each column keeps the rule of its code.
fn keeps_all(start: u8, tail: &[u8], l: Layout, at: AtLimit) -> bool
    requires { 1 ≤ start }
    ensures { result ≡ given (bad_tail at start tail.now l) true (λ _. false) }
{
    for i in 0..13 {
        if l.count <= i {
            return true;
        }
        if !keeps(start, tail, l.entries[i], at) {
            return false;
        }
    }
    true
}

// Whether a tail is what a layout of the family gives, whose first column starts at `start`, in a line that has these coordinates at their limits.
#[tactic(auto, unfolding(rules::specs::Limits::good_tail))]
pub(crate) fn good_tail(family: Family, start: u8, tail: &[u8], l: Layout, at: AtLimit) -> bool
    requires { (start ≡ first_start family) × (1 ≤ start) }
    ensures { result ≡ good_tail at start tail.now l }
{
    layout::allowed(family, l)
        && (start as usize) - 1 + tail.len() == layout::line_length(family, l) as usize
        && is_clean(tail)
        && keeps_all(start, tail, l, at)
}
