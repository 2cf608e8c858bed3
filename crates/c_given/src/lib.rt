// The readers of a line with its layout given as the text of the file's own I, J or M line; no bytes stand for no such line. A layout that its line tells
// is allowed, so it is not tested again.
#![tactic(auto)]

ghost use Rattle.std.specs.Prelude.{◌≤◌, ◌≡◌};
ghost use Rattle.rules.specs.Layouts.{LayoutTold};
ghost use Rattle.rules.specs.Reads.{extra_reading_told};
ghost use Rattle.rules.specs.Refusals.{no, result_told};
ghost use Rattle.c_given.specs.Given.{entry_at, extra_with, told_layout, LayoutBy, FixBy, ExtraBy, EntryBy, PresenceBy};

use rules::{
    Entry, Extra, ExtraReading, Family, Fix, FixReading, Layout, Presence, Reason, Refusal,
};

// The layout of a family from its line. BAD_VALUE for a line that is not of the family's kind, or that breaks a rule.
pub fn layout(family: Family, line: &[u8]) -> Result<Layout, Refusal>
    ensures { LayoutBy family line.now result }
{
    if line.len() == 0 {
        return Ok(layout::empty_layout());
    }
    match line_read::layout_of(family, line) {
        Ok(told) => Ok(told),
        Err(_) => Err(Refusal {
            reason: Reason::BadValue,
            line: 0,
            byte: 0,
        }),
    }
}

// A B line read: its fix, and the entries of its columns in layout order. BAD_VALUE for a layout that is not allowed and for another kind of line; then what the
// line's check refuses.
pub fn fix(line: &[u8], columns: &[u8]) -> Result<FixReading, Refusal>
    ensures { FixBy line.now columns.now result }
{
    let given = layout(Family::B, columns)?;
    line_known::fix(line, given)
}

// A K or an N line read, as is said.
fn extra_with(which: Extra, line: &[u8], columns: &[u8]) -> Result<ExtraReading, Refusal>
    ensures { extra_reading_told result ≡ extra_with which line.now columns.now }
{
    let given = layout(Family::Extra(which), columns)?;
    line_known::extra(which, line, given)
}

// A K line read by the text of a J line, or an N line by that of an M line: its time, and the entries of its columns in layout order. BAD_VALUE for any other line,
// and for a layout that is not allowed; then what the line's check refuses.
pub fn extra(line: &[u8], columns: &[u8]) -> Result<ExtraReading, Refusal>
    ensures { ExtraBy line.now columns.now result }
{
    let bad = Refusal {
        reason: Reason::BadValue,
        line: 0,
        byte: 0,
    };
    let Some(f) = layout_family::family(line) else {
        return Err(bad);
    };
    let Family::Extra(which) = f else {
        return Err(bad);
    };
    extra_with(which, line, columns)
}

fn no_column() -> Result<Entry, Refusal>
    ensures { result_told result ≡ no Reason.BadValue 0 }
{
    Err(Refusal {
        reason: Reason::BadValue,
        line: 0,
        byte: 0,
    })
}

// Column n of a layout, counted from 1. BAD_VALUE where there is none.
fn entry_at(l: Layout, n: usize) -> Result<Entry, Refusal>
    requires { (1 ≤ n) × (n ≤ 13) }
    ensures { result_told result ≡ entry_at l n }
{
    if l.count < n {
        return no_column();
    }
    Ok(l.entries[n - 1])
}

// The layout that a line tells, for whichever family. BAD_VALUE for another kind; then what `line_read::layout_of` refuses.
fn told_layout(columns: &[u8]) -> Result<Layout, Refusal>
    ensures { LayoutTold (told_layout columns.now) result }
{
    let Some(f) = layout_family::layout_family(columns) else {
        return Err(Refusal {
            reason: Reason::BadValue,
            line: 0,
            byte: 0,
        });
    };
    line_read::layout_of(f, columns)
}

// Column n of the layout that a line tells. BAD_VALUE for a number that no layout has; then what the line's reader refuses; then BAD_VALUE where this layout has
// no column n.
pub fn entry(columns: &[u8], n: usize) -> Result<Entry, Refusal>
    ensures { EntryBy columns.now n result }
{
    if n < 1 {
        return no_column();
    }
    if 13 < n {
        return no_column();
    }
    let given = told_layout(columns)?;
    entry_at(given, n)
}

// Which listed codes an I line carries.
pub fn presence(columns: &[u8]) -> Result<Presence, Refusal>
    ensures { PresenceBy columns.now result }
{
    let given = layout(Family::B, columns)?;
    layout::presence(given)
}
