// The badge list: which of the IGC files that its words name are fit for a claim, by the strict check: badge FILE...
#![tactic(auto)]

use igc_programs::{FILE, badge_run, end};
use std::alloc::AllocError;
use std::process::ExitCode;

// One file of the most bytes is lent.
fn run(rt: &HostRuntime) -> Result<u32, AllocError> {
    let mut input = vec![in rt.alloc(); 0u8; FILE]?;
    Ok(badge_run(rt, &mut input))
}

fn main(rt: HostRuntime) -> ExitCode {
    let ran = run(&rt);
    end(&rt, b"badge", ran)
}
