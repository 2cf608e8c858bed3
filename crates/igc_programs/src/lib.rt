// The programs igc and badge, one function each, which their `main` calls (the crates `igc` and `badge`). Here is what both do: an errand on each file that is named, and their end.
#![tactic(auto)]

ghost use Rattle.std.specs.Prelude.{◌≡◌, min};
ghost use Rattle.std.specs.Process.{exit_status};

mod badge;
mod igc;

pub use badge::badge_run;
pub use igc::igc_run;
use igc_errands::Errand;
use igc_fate::Fate;
use igc_host::Host;
use std::alloc::AllocError;
use std::process::ExitCode;

// The memory that a program lends: for a file one byte more than the most that it may have, by which a longer one is told; and an entry for each line that such a file can have.
pub const FILE: usize = 16777217;

pub const LINES: usize = 5592405;

// An errand on the file that a word names; the word `--` names none.
fn on_word<R: Host>(
    rt: &R,
    errand: Errand,
    i: usize,
    dashes: usize,
    several: bool,
    input: &mut [u8],
    table: &mut [u32],
) -> Fate {
    if i == dashes {
        return Fate::Accepted;
    }
    let mut name = [0u8; 4096];
    let k = igc_host::arg(rt, i, &mut name);
    igc_errands::on_file(rt, errand, &name[..k], several, input, table)
}

// An errand on each file that is named, from a word on; nothing more can be said where the output could not be written. The answer is the exit status.
fn on_each<R: Host>(
    rt: &R,
    errand: Errand,
    first: usize,
    n: usize,
    dashes: usize,
    several: bool,
    input: &mut [u8],
    table: &mut [u32],
) -> u32 {
    let mut status = 0;
    for i in first..n {
        let fate = on_word(rt, errand, i, dashes, several, input, table);
        status = igc_fate::worse(status, igc_fate::status_of(fate));
        if fate == Fate::Unwritten {
            return status;
        }
    }
    status
}

// The status as the process's own. The programs' statuses are 0, 1 and 2.
fn exit_code(status: u32) -> ExitCode
    ensures { exit_status result ≡ min status 2 }
{
    ExitCode::from(status.min(2) as u8)
}

// How a program ends: by its status; or by 2, and said on standard error by its name, where there was no memory for the files.
pub fn end<R: Host>(rt: &R, name: &[u8], ran: Result<u32, AllocError>) -> ExitCode {
    match ran {
        Ok(status) => exit_code(status),
        Err(_) => {
            let _ = rt.complain(name);
            let _ = rt.complain(b": there is not enough memory\n");
            exit_code(2)
        }
    }
}
