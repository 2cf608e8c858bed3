// The words that the program was started with.
ghost use Rattle.io.specs.Counts.{IsPrefixLen};

use crate::host::Host;
use std::env::FillError;

// A word put at the start of the buffer: its length; 0 where there is no such word, or it is longer than the buffer.
pub fn arg<R: Host>(rt: &R, i: usize, word: &mut [u8]) -> usize
    ensures { IsPrefixLen result word.new }
{
    rt.arg(i, word).unwrap_or(0)
}

// Whether there is a word at this place, of whatever length.
fn is_arg<R: Host>(rt: &R, i: usize) -> bool {
    let mut byte = [0u8; 1];
    !matches!(rt.arg(i, &mut byte), Err(FillError::NotPresent))
}

// How many words there are, the program's own name among them.
pub fn arg_count<R: Host>(rt: &R) -> usize {
    for i in 0..usize::MAX {
        if !is_arg(rt, i) {
            return i;
        }
    }
    usize::MAX
}
