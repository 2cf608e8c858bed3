// The text of any line of a file, also of one that is refused: the lines need not end with CR LF.
#![tactic(auto)]

ghost use Rattle.std.specs.Prelude.{◌≤◌, length};
ghost use Rattle.text_faulty.specs.Faulty.{FaultyTextGiven, LineStartGiven, TextEndGiven};

use file_lines::{Ended, line_end};

// Where the line behind a number of lines starts; the end of the file where there is none.
fn line_start(file: &[u8], lines: u32) -> usize
    ensures { LineStartGiven file.now lines result }
{
    let mut at = 0;
    for _ in 0..lines {
        let Ended::At(end) = line_end(file, at) else {
            return file.len();
        };
        at = end + 2;
    }
    at
}

// Where the text of the line from a place on ends, whether or not CR LF stands there.
fn text_end(file: &[u8], start: usize) -> usize
    requires { start ≤ length file.now }
    ensures { TextEndGiven file.now start result }
{
    match line_end(file, start) {
        Ended::At(end) | Ended::Broken(end) => end,
    }
}

// The text of line n, without its line end, also where that is not CR LF; no bytes where no line has that number.
pub fn line_text(file: &[u8], n: u32) -> &[u8]
    ensures { FaultyTextGiven file.now n result.now }
{
    if n == 0 {
        return &file[0..0];
    }
    let start = line_start(file, n - 1);
    let end = text_end(file, start);
    &file[start..end]
}
