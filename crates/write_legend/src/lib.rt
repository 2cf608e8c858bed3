// I, J and M lines, the legends of the columns of B, K and N lines: written into a lent output from a place on.
#![tactic(auto)]

ghost use Rattle.std.specs.Prelude.{◌++◌, ◌<◌, ◌≤◌};
ghost use Rattle.rules.specs.Listed.{code_text};
ghost use Rattle.rules.specs.Layouts.{entries_of};
ghost use Rattle.rules.specs.Writes.{entry_text, entry_texts, layout_text, crlf};
ghost use Rattle.rules.specs.Promises.{LayoutWritten};
ghost use Rattle.byte_put.specs.Puts.{Fills};
ghost use Rattle.write_legend.specs.Spelling.{Spellable};

use rules::{Entry, Family, Layout, Reason, Refusal};
use write_ending::refused;

// The three characters of a code.
fn fill_code(code: u32, out: &mut [u8], at: usize)
    requires { (code < 16777216) × (at ≤ 99) }
    ensures { Fills out.old at (code_text code) out.new }
{
    byte_put::byte(out, at, (code / 65536) as u8);
    byte_put::byte(out, at + 1, (code / 256 % 256) as u8);
    byte_put::byte(out, at + 1 + 1, (code % 256) as u8);
}

// An entry: start, finish and code.
fn fill_entry(e: Entry, out: &mut [u8], at: usize)
    requires { (e.code < 16777216) × (at ≤ 95) }
    ensures { Fills out.old at (entry_text e) out.new }
{
    byte_put::digits(out, at, 2, e.first as u64);
    byte_put::digits(out, at + 2, 2, e.last as u64);
    fill_code(e.code, out, at + 2 + 2);
}

// The entries of a layout, one behind the other, from the fourth byte on.
fn fill_entries(l: Layout, out: &mut [u8])
    requires { Spellable l }
    ensures { Fills out.old 3 (entry_texts (entries_of l)) out.new }
{
    for i in 0..l.count {
        fill_entry(l.entries[i], out, 3 + 7 * i);
    }
}

// A layout's line and its CR LF, at the front of an output.
fn fill_layout(family: Family, l: Layout, out: &mut [u8])
    requires { Spellable l }
    ensures { Fills out.old 0 (layout_text family l ++ crlf) out.new }
{
    let n = l.count;
    byte_put::byte(out, 0, layout_family::layout_letter(family));
    byte_put::digits(out, 1, 2, n as u64);
    fill_entries(l, out);
    byte_put::text(out, 3 + 7 * n, b"\r\n");
}

// An I line of a layout for B lines, a J line of one for K lines or an M line of one for N lines, into an output from a place on; the place after its CR
// LF. BadValue where no line tells the layout, NoRoom where the output is too short.
pub fn layout(family: Family, l: Layout, out: &mut [u8], place: usize) -> Result<usize, Refusal>
    ensures { LayoutWritten family l place out.old result out.new }
{
    if !layout::allowed(family, l) {
        return refused(Reason::BadValue);
    }
    let n = 5 + 7 * l.count;
    if out.len() < place || out.len() - place < n {
        return refused(Reason::NoRoom);
    }
    fill_layout(family, l, &mut out[place..]);
    Ok(place + n)
}
