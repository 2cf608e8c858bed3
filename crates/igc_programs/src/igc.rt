// Checks, lists or merges the IGC files that its words name, or prints their tracks or their summaries: igc check FILE..., igc list FILE..., igc track FILE..., igc summary FILE..., igc merge FIRST SECOND NEW; or keeps flights in a shelf: igc shelf SHELF ...
// It is one function, which the program's `main` calls.
use crate::on_each;
use igc_errands::Errand;
use igc_fate::Fate;
use igc_host::Host;
use igc_words::Verb;

// An errand on the files that the words from a place on name. A word that begins with a dash names none, but for those behind `--`.
fn on_files<R: Host>(
    rt: &R,
    errand: Errand,
    first: usize,
    n: usize,
    input: &mut [u8],
    table: &mut [u32],
) -> u32 {
    let names = igc_console::names_from(rt, first, n);
    if names.count == 0 {
        return igc_console::refuse_words(rt);
    }
    on_each(
        rt,
        errand,
        first,
        n,
        names.dashes,
        1 < names.count,
        input,
        table,
    )
}

// The two files that two words name, merged into the one that a third names.
fn merge_at<R: Host>(
    rt: &R,
    i: usize,
    j: usize,
    k: usize,
    input: &mut [u8],
    other: &mut [u8],
    out: &mut [u8],
) -> Fate {
    let mut first = [0u8; 4096];
    let a = igc_host::arg(rt, i, &mut first);
    let mut second = [0u8; 4096];
    let b = igc_host::arg(rt, j, &mut second);
    let mut new = [0u8; 4096];
    let c = igc_host::arg(rt, k, &mut new);
    igc_errands::merge_named(rt, &first[..a], &second[..b], &new[..c], input, other, out)
}

// The verb merge, where there are just three names behind it.
fn on_three<R: Host>(rt: &R, n: usize, input: &mut [u8], other: &mut [u8], out: &mut [u8]) -> u32 {
    let names = igc_console::names_from(rt, 2, n);
    if names.count != 3 {
        return igc_console::refuse_words(rt);
    }
    let i = igc_console::place_of(2, names.dashes);
    let j = igc_console::place_of(3, names.dashes);
    let k = igc_console::place_of(4, names.dashes);
    igc_fate::status_of(merge_at(rt, i, j, k, input, other, out))
}

// Runs the program on the arguments that it was started with, a verb and the names of files. `input` takes one file and `other` a second one: each has one byte more than the most that a
// file may have. `out` has as many as that for a merged file, and `table` an entry for each line of a file. The answer is the exit status: 0 all accepted, 1 some file refused, 2 not all was
// read or written, or wrong words.
pub fn igc_run<R: Host>(
    rt: &R,
    input: &mut [u8],
    other: &mut [u8],
    out: &mut [u8],
    table: &mut [u32],
) -> u32 {
    let n = igc_host::arg_count(rt);
    if n < 2 {
        return igc_console::refuse_words(rt);
    }
    match igc_console::verb_at(rt, 1) {
        Some(Verb::List) => on_files(rt, Errand::List, 2, n, input, table),
        Some(Verb::Check) => on_files(rt, Errand::Check, 2, n, input, table),
        Some(Verb::Track) => on_files(rt, Errand::Track, 2, n, input, table),
        Some(Verb::Summary) => on_files(rt, Errand::Summary, 2, n, input, table),
        Some(Verb::Merge) => on_three(rt, n, input, other, out),
        Some(Verb::Shelf) => igc_shelf::run(rt, n, input, other),
        Some(Verb::Help) => igc_console::tell(rt, false, n),
        Some(Verb::Version) => igc_console::tell(rt, true, n),
        None => on_files(rt, Errand::List, 1, n, input, table),
    }
}
