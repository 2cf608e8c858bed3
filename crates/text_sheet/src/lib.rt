// The lines of a track for people, sheet by sheet: those of the next fixes of a file in a lent block, and where the next sheet goes on.
#![tactic(auto)]

ghost use Rattle.std.specs.Prelude.{◌≡◌};
ghost use Rattle.text_pieces.specs.Buffer.{PiecePut};
ghost use Rattle.text_sheet.specs.Sheets.{sheet_of, line_of, SheetFilled};

use track_rules::{Progress, Record};

// A sheet in a lent block: how many bytes of it are used, how many fixes are still left, and how far the reading of the file has come.
#[derive(Clone, Copy)]
pub struct Sheet {
    pub used: usize,
    pub left: usize,
    pub next: Progress,
}

// How many of the fixes that are left go on one sheet: 380 at most.
fn few(left: usize) -> usize
    ensures { result ≡ sheet_of left }
{
    if 380 < left {
        return 380;
    }
    left
}

// A record's line, from a place of the block on.
fn put_line(out: &mut [u8], at: usize, r: Record) -> usize
    ensures { PiecePut out.old at (line_of r) result out.new }
{
    let fix = r.fix;
    text_track::put_record(out, at, r.line, r.day, fix)
}

// Puts the lines of the next fixes of an accepted file into a block, of those that are left at most 380: a block of 65,536 bytes has room for them, and a shorter one takes as much
// as it has room for, the lines behind that being lost. The rest of the block stays as it is. A step that finds no fix, as in a file that is not accepted, puts a line of zeros.
pub fn fill(file: &[u8], from: Progress, left: usize, block: &mut [u8]) -> Sheet
    ensures { SheetFilled file.now from left block.old result block.new }
{
    let n = few(left);
    let mut used = 0;
    let mut next = from;
    let mut i = 0;
    while i < n {
        let s = track_step::step(file, next);
        used = put_line(block, used, s.found);
        next = s.next;
        i += 1;
    }
    Sheet {
        used,
        left: left - n,
        next,
    }
}
