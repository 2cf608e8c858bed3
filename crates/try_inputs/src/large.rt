// A file of 16,777,217 bytes is TOO_LONG; one byte fewer is not, and is refused for its missing line end.
use rules::{Refusal, Seal};

fn over() -> [u8; 16777217] {
    [65; 16777217]
}

fn full() -> [u8; 16777216] {
    [65; 16777216]
}

fn print_verdict<R: Print>(rt: &R, file: &[u8]) {
    let mut table = [0u32; 4];
    let checked = check_file::check(Seal::Usual, file, &mut table);
    let outcome = checked.outcome;
    if let Err(why) = outcome {
        let _ = igc_list::print_refusal(rt, why);
    }
}

pub fn check<R: Print>(rt: &R) {
    let over_by_one = over();
    print_verdict(rt, &over_by_one);
    let filled = full();
    print_verdict(rt, &filled);
}
