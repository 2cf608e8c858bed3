// The badge list: which of the IGC files that its words name are fit for a claim, by the strict check: badge FILE...
// It is one function, which the program's `main` calls.
use crate::on_each;
use igc_errands::Errand;
use igc_fate::Fate;
use igc_host::Host;
use igc_words::Verb;
use std::io;

const USAGE: [u8; 276] = *b"\
    usage: badge FILE...\n\
    Each file that is fit for a claim, with its date, its recorder, the number of its fixes\n\
    and 'signed'; or why it is refused.\n\
    Behind -- every word is a file's name.\n\
    Status: 0 all accepted, 1 some file refused, 2 not all was read or written, or wrong words.\n\
";

fn print_usage<R: Print>(rt: &R) -> io::Result<()> {
    rt.write_all(&USAGE)
}

fn refuse_words<R: Host>(rt: &R) -> u32 {
    let _ = rt.complain(&USAGE);
    2
}

// A claim needs no table: one entry is lent, and never looked at.
fn on_names<R: Host>(rt: &R, n: usize, dashes: usize, input: &mut [u8]) -> u32 {
    let mut table = [0u32; 1];
    on_each(rt, Errand::Claim, 1, n, dashes, false, input, &mut table)
}

// Words that name no file: `--help` alone is told, and all else refused; then nothing is done.
fn on_no_names<R: Host>(rt: &R, n: usize) -> u32 {
    if n != 2 {
        return refuse_words(rt);
    }
    match igc_console::verb_at(rt, 1) {
        Some(Verb::Help) => igc_fate::status_of(igc_errands::claim_fate(
            rt,
            print_usage(rt),
            Fate::Accepted,
        )),
        _ => refuse_words(rt),
    }
}

// Runs the program on the arguments that it was started with, the names of files. `input` takes one file: it has one byte more than the most that a file may have. The answer is the exit
// status: 0 all accepted, 1 some file refused, 2 not all was read or written, or wrong words.
pub fn badge_run<R: Host>(rt: &R, input: &mut [u8]) -> u32 {
    let n = igc_host::arg_count(rt);
    let names = igc_console::names_from(rt, 1, n);
    if names.count == 0 {
        return on_no_names(rt, n);
    }
    on_names(rt, n, names.dashes, input)
}
