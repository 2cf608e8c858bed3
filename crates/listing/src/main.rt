// Lists the IGC file on standard input: OK and its counts, FIX for each fix, COL for each of its columns; or REFUSED with number, line and byte.
#![tactic(auto)]

use igc_host::{Host, fail};
use std::io::Read;

// An input that was read short of the limit has to be at its end. The program has no exit status, so what fails is said on standard error.
fn is_whole<F: Read>(input: &mut F, n: usize) -> bool {
    if 65536 < n {
        return true;
    }
    igc_list::is_at_end(input)
}

fn list<R: Host, F: Read>(rt: &R, from: &mut F) {
    let mut input = [0u8; 65537];
    let n = igc_host::read_full(from, &mut input);
    if !is_whole(from, n) {
        let _ = rt.complain(b"listing: the input cannot be read to its end\n");
        return;
    }
    if let Err(error) = igc_list::list(rt, &input[..n]) {
        fail(rt, b"listing: the output could not be written", error);
    }
}

fn main(rt: HostRuntime) {
    list(&rt, &mut rt.stdin());
}
