// A track in a form, sheet by sheet: the next fixes of a file in a lent block, and where the next sheet goes on.
#![tactic(auto)]

ghost use Rattle.std.specs.Prelude.{◌≡◌};
ghost use Rattle.text_stretch.specs.Sheets.{sheet_of, StretchPut, SheetFilled};

use text_forms::{Form, put_line};
use track_rules::Progress;

// A sheet in a lent block: how many bytes of it are used, how many fixes are still left, and how far the reading of the file has come.
#[derive(Clone, Copy)]
pub struct Sheet {
    pub used: usize,
    pub left: usize,
    pub next: Progress,
}

// The place behind the fixes that were put, and how far the reading of the file has come.
#[derive(Clone, Copy)]
pub struct Stretch {
    pub used: usize,
    pub next: Progress,
}

// How many of the fixes that are left go on one sheet: 360 at most.
fn few(left: usize) -> usize
    ensures { result ≡ sheet_of left }
{
    if 360 < left {
        return 360;
    }
    left
}

// Puts the next n fixes of an accepted file into a buffer, in a form, from a place on, as far as there is room. A step that finds no fix, as in a file that is not accepted, puts a
// fix of zeros.
pub fn put_fixes(
    file: &[u8],
    form: Form,
    from: Progress,
    n: usize,
    out: &mut [u8],
    at: usize,
) -> Stretch
    ensures { StretchPut form file.now from n out.old at result out.new }
{
    let mut used = at;
    let mut next = from;
    let mut i = 0;
    while i < n {
        let s = track_step::step(file, next);
        used = put_line(out, used, form, s.found);
        next = s.next;
        i += 1;
    }
    Stretch { used, next }
}

// Puts the next fixes of an accepted file into a block, in a form, of those that are left at most 360: a block of 65,536 bytes has room for them, and a shorter one takes as much
// as it has room for, the lines behind that being lost. The rest of the block stays as it is. A step that finds no fix, as in a file that is not accepted, puts a line of zeros.
pub fn fill(file: &[u8], form: Form, from: Progress, left: usize, block: &mut [u8]) -> Sheet
    ensures { SheetFilled form file.now from left block.old result block.new }
{
    let n = few(left);
    let s = put_fixes(file, form, from, n, block, 0);
    let next = s.next;
    Sheet {
        used: s.used,
        left: left - n,
        next,
    }
}
