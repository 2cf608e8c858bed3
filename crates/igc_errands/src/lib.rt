// What the programs igc and badge do with files that are named: each errand goes from a file's name to its fate.
#![tactic(auto)]

mod claims;
mod files;
mod merging;
mod summaries;
mod tracks;

pub use claims::claim_fate;
use claims::print_claim;
use files::{print_check, print_list};
use igc_console::{fate_of, print_heading};
use igc_fate::Fate;
use igc_host::Host;
use igc_named::read_named;
pub use merging::merge_named;
use summaries::print_summary;
use tracks::{Kind, print_track};

// What is wanted of a file: its listing, a line that says whether it is accepted, its track for people or for other programs, its summary; or whether it is fit for a claim, which the badge list asks.
#[derive(Clone, Copy, Debug, PartialEq, Eq)]
pub enum Errand {
    List,
    Check,
    Track,
    Csv,
    Gpx,
    Summary,
    Claim,
}

// A listing or a track has the file's name before it where there are several, so that one file alone gives just what the listing gives, or just its track. The others have the name in
// their line.
fn is_headed(errand: Errand, several: bool) -> bool {
    several && matches!(errand, Errand::List | Errand::Track)
}

// An errand on a file that was read whole.
fn on_read<R: Host>(rt: &R, errand: Errand, name: &[u8], file: &[u8], table: &mut [u32]) -> Fate {
    match errand {
        Errand::List => print_list(rt, file, table),
        Errand::Check => print_check(rt, name, file, table),
        Errand::Track => print_track(rt, file, Kind::Track),
        Errand::Csv => print_track(rt, file, Kind::Csv),
        Errand::Gpx => print_track(rt, file, Kind::Gpx),
        Errand::Summary => print_summary(rt, name, file),
        Errand::Claim => print_claim(rt, name, file),
    }
}

// An errand on the file of a name: what is wanted of it is written to standard output, or why the file is refused. `input` takes the file, and has one byte more than the most that a file
// may have; `table` has an entry for each line of a file. The answer tells what became of the file; it is not read whole where it cannot be opened or read to its end, or is longer.
pub fn on_file<R: Host>(
    rt: &R,
    errand: Errand,
    name: &[u8],
    several: bool,
    input: &mut [u8],
    table: &mut [u32],
) -> Fate {
    if is_headed(errand, several) {
        if let Err(error) = print_heading(rt, name) {
            return fate_of(rt, Err(error), Fate::Unwritten);
        }
    }
    let Ok(n) = read_named(rt, name, input) else {
        return Fate::Unread;
    };
    on_read(rt, errand, name, &input[..n], table)
}
