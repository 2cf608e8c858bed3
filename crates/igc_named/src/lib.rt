// A file by its name, read whole.
#![tactic(auto)]

ghost use Rattle.std.specs.Prelude.{IfErr, IfOk};
ghost use Rattle.io.specs.Counts.{IsPrefixLen};

use igc_console::{say_unopened, say_unread};
use igc_host::Host;
use std::io::Read;

// Whether a file of which so many bytes were read has no more. Of one that is too long this is not asked: it is refused as such.
fn is_whole<F: Read>(file: &mut F, count: usize) -> bool {
    if 16777216 < count {
        return true;
    }
    igc_list::is_at_end(file)
}

// How many bytes of the input are the file's; an Err where they are not all that it has.
fn read_open<F: Read>(file: &mut F, input: &mut [u8]) -> Result<usize, usize>
    ensures { IfOk result (λ n. IsPrefixLen n input.new) × IfErr result (λ n. IsPrefixLen n input.new) }
{
    let count = igc_host::read_full(file, input);
    if is_whole(file, count) {
        Ok(count)
    } else {
        Err(count)
    }
}

// A file read into the input: how many bytes it has. Where it cannot be opened or read to its end this is said, and an Err tells how many bytes of the input are the file's all the same.
pub fn read_named<R: Host>(rt: &R, name: &[u8], input: &mut [u8]) -> Result<usize, usize>
    ensures { IfOk result (λ n. IsPrefixLen n input.new) × IfErr result (λ n. IsPrefixLen n input.new) }
{
    match igc_host::open_read(rt, name) {
        Ok(opened) => {
            let mut file = opened;
            let got = read_open(&mut file, input);
            if got.is_err() {
                say_unread(rt, name);
            }
            got
        }
        Err(error) => {
            say_unopened(rt, name, error);
            Err(0)
        }
    }
}
