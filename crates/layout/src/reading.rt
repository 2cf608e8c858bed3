// An I, a J or an M line: its shape, then its number of entries, then its entries from the left.
ghost use Rattle.std.specs.Prelude.{◌≤◌, length};
ghost use Rattle.rules.specs.Layouts.{LayoutTold, empty_layout, entries_from, layout_fields};
ghost use Rattle.rules.specs.Promises.{LayoutChecked};
ghost use Rattle.layout.specs.Parts.{LayoutRefused};

use layout_family::first_start;
use rules::{Entry, Family, Layout, Reason, Refusal};

// No layout: the refusal.
#[tactic(auto, unfolding(rules::specs::Refusals::result_told))]
pub fn refused(why: Refusal) -> Result<Layout, Refusal>
    ensures { LayoutRefused why result }
{
    Err(why)
}

// The entries of a line, `count` of them, the first of which has to start at `origin`. The codes stand by themselves too, so that they can be lent.
fn entries(line: &[u8], count: usize, origin: usize) -> Result<Layout, Refusal>
    requires { count ≤ 13 }
    ensures { LayoutTold (entries_from count line.now 3 origin empty_layout) result }
{
    let unused = Entry {
        first: 0,
        last: 0,
        code: 0,
    };
    let mut entries = [unused; 13];
    let mut codes: [u32; 13] = [0; 13];
    let mut start = origin;
    for i in 0..count {
        let e = layout_entry::entry_at(line, i as u8, start, &codes)?;
        entries[i] = e;
        codes[i] = e.code;
        start = e.last as usize + 1;
    }
    Ok(Layout { count, entries })
}

// NN and the length against it, 9 at byte 2; then the entries from the left.
fn fields(start: usize, line: &[u8]) -> Result<Layout, Refusal>
    requires { length line.now ≤ 99 }
    ensures { LayoutTold (layout_fields start line.now) result }
{
    let broken = Refusal {
        reason: Reason::Form,
        line: 0,
        byte: 2,
    };
    let Some(nn) = byte_number::digits(line, 1, 2) else {
        return Err(broken);
    };
    if line.len() != 3 + 7 * (nn as usize) {
        return Err(broken);
    }
    entries(line, nn as usize, start)
}

// An I line for B lines, a J line for K lines or an M line for N lines, by the checks of 7 to 12: 7 at byte 0 outside 3 to 99 bytes; 8 at the first invalid byte; 9 at byte 2 for NN
// or a length that is not 3 + 7 × NN; then entry by entry 9 at the first byte of a field that breaks its rule, and 10, 11 and 12 at the entry's first byte.
pub fn layout_line(family: Family, line: &[u8]) -> Result<Layout, Refusal>
    ensures { LayoutChecked family line.now result }
{
    byte_shape::shaped(line, 3, 99, false)?;
    fields(first_start(family), line)
}
