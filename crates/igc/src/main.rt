// Checks, lists or merges the IGC files that its words name, or prints their tracks or their summaries, or keeps flights in a shelf (igc help).
#![tactic(auto)]

use igc_programs::{FILE, LINES, end, igc_run};
use std::alloc::AllocError;
use std::process::ExitCode;

// Two files of the most bytes, one to merge them into, and a table of lines are lent.
fn run(rt: &HostRuntime) -> Result<u32, AllocError> {
    let mut input = vec![in rt.alloc(); 0u8; FILE]?;
    let mut other = vec![in rt.alloc(); 0u8; FILE]?;
    let mut out = vec![in rt.alloc(); 0u8; FILE - 1]?;
    let mut table = vec![in rt.alloc(); 0u32; LINES]?;
    Ok(igc_run(rt, &mut input, &mut other, &mut out, &mut table))
}

fn main(rt: HostRuntime) -> ExitCode {
    let ran = run(&rt);
    end(&rt, b"igc", ran)
}
