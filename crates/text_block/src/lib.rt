// The listing behind its first line, block by block: each fix of the file and its columns, in their order.
#![tactic(auto)]

ghost use Rattle.std.specs.Prelude.{◌+◌, true, ◌≡◌, ltb};
ghost use Rattle.rules.specs.Layouts.{allowed};
ghost use Rattle.text_block.specs.Blocks.{LinesFilled, Filled};

use lines::{line_at, put_line};
use rules::{Family, Layout};

mod lines;

// A page of the listing in a lent block: how many bytes of it are used, and how many lines of the file are passed with it.
#[derive(Clone, Copy, Debug, PartialEq, Eq)]
pub struct Page {
    pub used: usize,
    pub passed: u32,
}

// Whether a block might not have room for all that is printed for one more line.
fn is_full(used: usize, size: usize) -> bool
    ensures { result ≡ ltb size (used + 4096) }
{
    size < 4096 || size - 4096 < used
}

// The lines behind those passed, as many as the block surely has room for.
fn fill_lines(
    passed: u32,
    file: &[u8],
    table: &[u32],
    lines: u32,
    layout: Layout,
    block: &mut [u8],
) -> Page
    requires { allowed 36 layout ≡ true }
    ensures { LinesFilled file.now table.now lines layout passed block.old result block.new }
{
    let mut used = 0;
    for next in passed..lines {
        if is_full(used, block.len()) {
            return Page { used, passed: next };
        }
        let line = line_at(file, table, lines, next);
        used = put_line(next, line, layout, block, used);
    }
    Page {
        used,
        passed: passed.max(lines),
    }
}

// Fills a block with what is printed for the lines behind those passed: FIX and its columns for each fix, nothing for another line. As many lines as it surely has
// room for; the rest of the block stays as it is. A layout that is not allowed reads no fix, so nothing is left to print.
pub fn fill(
    passed: u32,
    file: &[u8],
    table: &[u32],
    lines: u32,
    layout: Layout,
    block: &mut [u8],
) -> Page
    ensures { Filled file.now table.now lines layout passed block.old result block.new }
{
    if !layout::allowed(Family::B, layout) {
        return Page {
            used: 0,
            passed: lines,
        };
    }
    fill_lines(passed, file, table, lines, layout, block)
}
