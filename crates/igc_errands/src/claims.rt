// Whether a file is fit for a claim: by the strict check.
use igc_console::{fate_by, print_fit, print_refused};
use igc_fate::Fate;
use igc_host::Host;
use rules::{Refusal, Seal};
use std::io;

// The fate given, where all was written; else Unwritten, and badge says so on standard error.
pub fn claim_fate<R: Host>(rt: &R, written: io::Result<()>, fate: Fate) -> Fate {
    fate_by(rt, b"badge: the output could not be written", written, fate)
}

// The badge list's line of a file that is fit for a claim, or why the file is refused, with its name before it.
pub(crate) fn print_claim<R: Host>(rt: &R, name: &[u8], file: &[u8]) -> Fate {
    let checked = check_file::check_untabled(Seal::Strict, file);
    let outcome = checked.outcome;
    let flight = checked.flight;
    match outcome {
        Err(why) => claim_fate(rt, print_refused(rt, name, file, why), Fate::Refused),
        Ok(()) => claim_fate(rt, print_fit(rt, name, flight, file), Fate::Accepted),
    }
}
