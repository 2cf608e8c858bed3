// A file listed, or checked: by the usual check.
use igc_console::{fate_of, print_accepted, print_refusal, print_refused};
use igc_fate::Fate;
use igc_host::Host;
use rules::{Refusal, Seal};

// The listing of an accepted file, or why it is refused.
pub(crate) fn print_list<R: Host>(rt: &R, file: &[u8], table: &mut [u32]) -> Fate {
    let checked = check_file::check(Seal::Usual, file, table);
    let outcome = checked.outcome;
    let flight = checked.flight;
    match outcome {
        Err(why) => fate_of(rt, print_refusal(rt, file, why), Fate::Refused),
        Ok(()) => fate_of(
            rt,
            igc_list::print_accepted(rt, file, table, flight),
            Fate::Accepted,
        ),
    }
}

// One line of an accepted file, or why it is refused, with its name before it.
pub(crate) fn print_check<R: Host>(rt: &R, name: &[u8], file: &[u8], table: &mut [u32]) -> Fate {
    let checked = check_file::check(Seal::Usual, file, table);
    let outcome = checked.outcome;
    let flight = checked.flight;
    match outcome {
        Err(why) => fate_of(rt, print_refused(rt, name, file, why), Fate::Refused),
        Ok(()) => fate_of(rt, print_accepted(rt, name, flight), Fate::Accepted),
    }
}
