// The words that igc was started with.
use crate::{fate_of, print_usage, say_usage, write};
use igc_fate::Fate;
use igc_host::Host;
use igc_words::Verb;

// The verb that a word is; None where it is none.
pub fn verb_at<R: Host>(rt: &R, i: usize) -> Option<Verb> {
    let mut word = [0u8; 4096];
    let k = igc_host::arg(rt, i, &mut word);
    igc_words::verb_of(&word[..k])
}

fn is_option_at<R: Host>(rt: &R, i: usize) -> bool {
    let mut word = [0u8; 4096];
    let k = igc_host::arg(rt, i, &mut word);
    igc_words::is_option(&word[..k])
}

fn begins_names_at<R: Host>(rt: &R, i: usize) -> bool {
    let mut word = [0u8; 4096];
    let k = igc_host::arg(rt, i, &mut word);
    igc_words::begins_names(&word[..k])
}

// Where the first word that begins with a dash stands, of those from a place on; n where none does.
fn first_option<R: Host>(rt: &R, from: usize, n: usize) -> usize {
    for i in from..n {
        if is_option_at(rt, i) {
            return i;
        }
    }
    n
}

// The names of files among the words from a place on: how many they are, and where `--` stands, behind which every word is one. None where a word before it begins with a dash.
#[derive(Clone, Copy, Debug, PartialEq, Eq)]
pub struct Names {
    pub dashes: usize,
    pub count: usize,
}

// The names among the words from a place on, of n words.
pub fn names_from<R: Host>(rt: &R, first: usize, n: usize) -> Names {
    let dashes = first_option(rt, first, n);
    if n <= first {
        return Names { dashes, count: 0 };
    }
    if n <= dashes {
        return Names {
            dashes,
            count: n - first,
        };
    }
    if !begins_names_at(rt, dashes) {
        return Names { dashes, count: 0 };
    }
    Names {
        dashes,
        count: n - first - 1,
    }
}

// Words that are not those of the help text: nothing is done.
pub fn refuse_words<R: Host>(rt: &R) -> u32 {
    say_usage(rt);
    2
}

// The help text or the version, where no further word stands behind the verb.
pub fn tell<R: Host>(rt: &R, version: bool, n: usize) -> u32 {
    if 2 < n {
        return refuse_words(rt);
    }
    let written = if version {
        write(rt, b"igc 1, of Hivebasket\n")
    } else {
        print_usage(rt)
    };
    igc_fate::status_of(fate_of(rt, written, Fate::Accepted))
}

// The place of a word that names a file, where it is known without `--`: one further where that stands before it.
pub fn place_of(i: u32, dashes: usize) -> usize {
    let place = i as usize;
    if place < dashes { place } else { place + 1 }
}
