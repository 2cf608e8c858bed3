// The part of a file up to the end of its last G line: how long it is, whether two files have it alike, and how many notes stand behind it.
#![tactic(auto)]

ghost use Rattle.notes_common.specs.Common.{CommonCounted, CommonFound, NotesCounted};

use file_lines::Ended;

// How many bytes a file has up to the end of its last G line; 0 where it has none. Lines are looked at up to the first that no CR LF ends.
pub fn count(file: &[u8]) -> usize
    ensures { CommonCounted file.now result }
{
    let mut at = 0;
    let mut seen = 0;
    // counted by hand: the place jumps from line to line
    while at < file.len() {
        let Ended::At(end) = file_lines::line_end(file, at) else {
            return seen;
        };
        if file[at] == b'G' {
            seen = end + 2;
        }
        at = end + 2;
    }
    seen
}

// How many notes a file has: the lines behind its last G line, or all of them where it has none. Lines are looked at up to the first that no CR LF ends.
pub fn notes(file: &[u8]) -> usize
    ensures { NotesCounted file.now result }
{
    let mut at = 0;
    let mut seen = 0;
    // counted by hand: the place jumps from line to line
    while at < file.len() {
        let Ended::At(end) = file_lines::line_end(file, at) else {
            return seen;
        };
        seen += 1;
        if file[at] == b'G' {
            seen = 0;
        }
        at = end + 2;
    }
    seen
}

// How many bytes two files have up to the end of their last G lines, where these bytes are the same.
pub fn alike(first: &[u8], second: &[u8]) -> Option<usize>
    ensures { CommonFound first.now second.now result }
{
    let n = count(first);
    if n != count(second) || first[..n] != second[..n] {
        return None;
    }
    Some(n)
}
