// What is printed for one line of a file: where it stands, and its fix and columns put into a block.
ghost use Rattle.std.specs.Prelude.{◌<◌, true, ◌≡◌, get_or};
ghost use Rattle.rules.specs.Layouts.{entries_of, allowed};
ghost use Rattle.text_pieces.specs.Buffer.{PiecePut};
ghost use Rattle.text_block.specs.Blocks.{end_of, text_at, column_lines, printed};

use rules::{FixFields, Layout, Refusal};

// An entry of a table, 0 past its end.
fn entry(table: &[u32], i: usize) -> usize
    ensures { result ≡ get_or table.now i 0 }
{
    table.get(i).copied().unwrap_or(0) as usize
}

// Where the line behind those passed ends: at the CR LF before the next line, or before the end of the file.
fn end_of(table: &[u32], lines: u32, passed: u32, size: usize) -> usize
    requires { passed < 4294967295 }
    ensures { result ≡ end_of table.now lines passed size }
{
    let next = passed + 1;
    let end = if next < lines {
        entry(table, next as usize)
    } else {
        size
    };
    end.saturating_sub(2)
}

// The line behind those passed, without its CR LF, by a table of the lines' offsets; no bytes where the offsets are no part of the file.
pub(crate) fn line_at<'a>(file: &'a [u8], table: &[u32], lines: u32, passed: u32) -> &'a [u8]
    requires { passed < 4294967295 }
    ensures { result.now ≡ text_at file.now table.now lines passed }
{
    let start = entry(table, passed as usize);
    let end = end_of(table, lines, passed, file.len());
    file.get(start..end).unwrap_or_default()
}

// COL, a code and its text, for each entry of the layout.
fn put_columns(out: &mut [u8], at: usize, line: &[u8], layout: Layout) -> usize
    ensures { PiecePut out.old at (column_lines line.now (entries_of layout)) result out.new }
{
    let entries = &layout.entries[..layout.count.min(13)];
    let mut next = at;
    for e in entries {
        next = text_listing::put_column(out, next, line, *e);
    }
    next
}

// FIX and its values with its columns where the line is a B line and its fields are good, and nothing where it is another line: the place behind.
pub(crate) fn put_line(passed: u32, line: &[u8], layout: Layout, out: &mut [u8], at: usize) -> usize
    requires { (passed < 4294967295) × (allowed 36 layout ≡ true) }
    ensures { PiecePut out.old at (printed passed layout line.now) result out.new }
{
    if byte_chars::byte(line, 0) != b'B' {
        return at;
    }
    let Ok(f) = line_fix::fix_fields(line) else {
        return at;
    };
    let next = text_listing::put_fix(out, at, passed + 1, f);
    put_columns(out, next, line, layout)
}
