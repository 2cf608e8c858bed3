// The columns of a B, a K or an N line: the text of a column, and each listed column by its rule. Every layout value has an answer.
#![tactic(auto)]

ghost use Rattle.std.specs.Prelude.{◌≡◌};
ghost use Rattle.rules.specs.Choice.{byte};
ghost use Rattle.rules.specs.Layouts.{span_of, column_text};
ghost use Rattle.rules.specs.Listed.{keeps_limit};
ghost use Rattle.rules.specs.Promises.{ColumnsChecked};
ghost use Rattle.layout_column.specs.Parts.{TextOf};

use rules::{AtLimit, Entry, Layout, Reason, Refusal};

// How many bytes stand before a byte of a line.
fn before(first: u8) -> usize
    ensures { result ≡ byte first }
{
    (first as usize).saturating_sub(1)
}

// The bytes first to last of a line, counted from 1, as far as the line has them.
pub fn text_of(line: &[u8], first: u8, last: u8) -> &[u8]
    ensures { TextOf line.now first last result.now }
{
    let end = line.len().min(last as usize);
    line.get(before(first)..end).unwrap_or(&[])
}

// Whether a column of a line, which has these coordinates at their limits, keeps the rule of its code.
fn keeps(line: &[u8], e: Entry, at: AtLimit) -> bool
    ensures { result ≡ keeps_limit at e.code (column_text line.now (span_of e)) }
{
    layout_codes::keeps_limit(at, e.code, text_of(line, e.first, e.last))
}

// COLUMN at the first byte of the first listed column that breaks its rule, in a line that has these coordinates at their limits.
pub fn columns(line: &[u8], layout: Layout, at: AtLimit) -> Result<(), Refusal>
    ensures { ColumnsChecked at line.now layout result }
{
    for i in 0..13 {
        if layout.count <= i {
            return Ok(());
        }
        let e = layout.entries[i];
        if !keeps(line, e, at) {
            return Err(Refusal {
                reason: Reason::Column,
                line: 0,
                byte: e.first as u32,
            });
        }
    }
    Ok(())
}
