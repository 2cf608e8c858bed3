// The track of a file as values: a fix as a record, and how far the reading of the fixes has come. What the track of a file is, is told in specs/.
#![tactic(auto)]

use rules::{Finer, Fix};

// A fix of the track: the number of its line, its day counted from 0, and what its reading gives.
#[repr(C)]
#[derive(Clone, Copy)]
pub struct Record {
    pub line: u32,
    pub day: u32,
    pub fix: Fix,
}

// How far the reading of a file's fixes has come: the place, how many lines are passed, the last time, the day; and how many bytes a B line of the file has, and where its columns of
// finer digits stand.
#[derive(Clone, Copy)]
pub struct Progress {
    pub at: usize,
    pub lines: u32,
    pub clock: u32,
    pub day: u32,
    pub size: usize,
    pub finer: Finer,
}

// The fix that was found, and how far the reading has come with it.
#[derive(Clone, Copy)]
pub struct FixStep {
    pub found: Record,
    pub next: Progress,
}
