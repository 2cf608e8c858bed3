// A shelf of flights in a file on disk, for igc: a flight added, handed out or removed, its flights told, its bodies packed. A changed shelf is written beside the old one, and takes its name
// when it is whole.
#![tactic(auto)]

use igc_console::{fate_of, print_refused};
use igc_fate::Fate;
use igc_host::Host;
use igc_named::read_named;
use igc_words::Deed;
use rules::{Reason, Refusal, Seal};
use shelf_rules::Extent;

// A refusal of the shelf: it names no line.
fn refuse<R: Host>(rt: &R, name: &[u8], why: Refusal) -> Fate {
    fate_of(rt, print_refused(rt, name, b"", why), Fate::Refused)
}

// A changed shelf in the old one's place; or why it is not changed, and then the new file is given up.
fn keep<R: Host>(
    rt: &R,
    name: &[u8],
    new: &[u8],
    file: R::File,
    shelf: &[u8],
    done: Result<(), Refusal>,
) -> Fate {
    match done {
        Err(why) => {
            igc_console::give_up(rt, new, file);
            refuse(rt, name, why)
        }
        Ok(()) => {
            if igc_console::replace(rt, name, new, file, shelf) {
                Fate::Accepted
            } else {
                Fate::Unwritten
            }
        }
    }
}

// Whether a refusal of adding is the file's own, by the usual check: the shelf's own numbers are greater.
fn is_of_file(why: Refusal) -> bool {
    text_refusal::number(why.reason) < 26
}

// Why a file is not added, told of the file or of the shelf.
fn refuse_added<R: Host>(rt: &R, name: &[u8], from: &[u8], file: &[u8], why: Refusal) -> Fate {
    if is_of_file(why) {
        return fate_of(rt, print_refused(rt, from, file, why), Fate::Refused);
    }
    refuse(rt, name, why)
}

// A body as `igc check` tells a file.
fn tell_named<R: Host>(rt: &R, name: &[u8], body: &[u8]) -> Fate {
    let checked = check_file::check_untabled(Seal::Usual, body);
    let outcome = checked.outcome;
    let flight = checked.flight;
    match outcome {
        Err(why) => fate_of(rt, print_refused(rt, name, body, why), Fate::Refused),
        Ok(()) => fate_of(
            rt,
            igc_console::print_accepted(rt, name, flight),
            Fate::Accepted,
        ),
    }
}

// A flight of the shelf, with its number for a name.
fn tell<R: Host>(rt: &R, number: u32, body: &[u8]) -> Fate {
    let mut word = [0u8; 20];
    let n = text_pieces::put_decimal(&mut word, 0, number as u64);
    tell_named(rt, &word[..n], body)
}

// The flight of entry n, where it is not free.
fn tell_entry<R: Host>(rt: &R, shelf: &[u8], n: usize) -> Fate {
    let number = shelf_slot::slot_at(shelf, n).number;
    if number == 0 {
        return Fate::Accepted;
    }
    let body = shelf::body(shelf, number);
    tell(rt, number, body)
}

// Each flight, in the order of the table of contents; the worst of what became of them. Nothing more can be said where the output could not be written.
fn list<R: Host>(rt: &R, shelf: &[u8]) -> u32 {
    let mut status = 0;
    for n in 0..64 {
        let fate = tell_entry(rt, shelf, n);
        status = igc_fate::worse(status, igc_fate::status_of(fate));
        if fate == Fate::Unwritten {
            return status;
        }
    }
    status
}

fn list_sound<R: Host>(rt: &R, name: &[u8], shelf: &[u8]) -> u32 {
    if !shelf_contents::is_sound(shelf) {
        return igc_fate::status_of(refuse(rt, name, file_lines::unplaced(Reason::Shelf)));
    }
    list(rt, shelf)
}

// The bytes of a flight on standard output.
fn get<R: Host>(rt: &R, name: &[u8], shelf: &[u8], number: u32) -> Fate {
    match shelf::ask(shelf, number) {
        Err(why) => refuse(rt, name, why),
        _ => fate_of(
            rt,
            igc_console::write(rt, shelf::body(shelf, number)),
            Fate::Accepted,
        ),
    }
}

// What is asked of a shelf that is only read.
fn on_read<R: Host>(rt: &R, deed: Deed, number: u32, name: &[u8], input: &mut [u8]) -> u32 {
    let Ok(n) = read_named(rt, name, input) else {
        return igc_fate::status_of(Fate::Unread);
    };
    match deed {
        Deed::List => list_sound(rt, name, &input[..n]),
        _ => igc_fate::status_of(get(rt, name, &input[..n], number)),
    }
}

// A file put on the shelf, by the word that names it.
fn add_flight<R: Host>(
    rt: &R,
    i: usize,
    number: u32,
    name: &[u8],
    new: &[u8],
    file: R::File,
    shelf: &mut [u8],
    other: &mut [u8],
) -> Fate {
    let mut from = [0u8; 4096];
    let k = igc_host::arg(rt, i, &mut from);
    let Ok(n) = read_named(rt, &from[..k], other) else {
        igc_console::give_up(rt, new, file);
        return Fate::Unread;
    };
    match shelf::add(shelf, number, &other[..n]) {
        Ok(_) => keep(rt, name, new, file, shelf, Ok(())),
        Err(why) => {
            igc_console::give_up(rt, new, file);
            refuse_added(rt, name, &from[..k], &other[..n], why)
        }
    }
}

fn remove_flight<R: Host>(
    rt: &R,
    number: u32,
    name: &[u8],
    new: &[u8],
    file: R::File,
    shelf: &mut [u8],
) -> Fate {
    let done = shelf::remove(shelf, number);
    keep(rt, name, new, file, shelf, done)
}

fn pack_flights<R: Host>(rt: &R, name: &[u8], new: &[u8], file: R::File, shelf: &mut [u8]) -> Fate {
    let done = shelf_pack::pack(shelf);
    keep(rt, name, new, file, shelf, done)
}

// What is asked of a shelf that is changed, when the new file is made: from then on no one else changes the shelf in this way.
fn change<R: Host>(
    rt: &R,
    deed: Deed,
    i: usize,
    number: u32,
    name: &[u8],
    new: &[u8],
    file: R::File,
    input: &mut [u8],
    other: &mut [u8],
) -> Fate {
    let Ok(n) = read_named(rt, name, input) else {
        igc_console::give_up(rt, new, file);
        return Fate::Unread;
    };
    match deed {
        Deed::Add => add_flight(rt, i, number, name, new, file, &mut input[..n], other),
        Deed::Pack => pack_flights(rt, name, new, file, &mut input[..n]),
        _ => remove_flight(rt, number, name, new, file, &mut input[..n]),
    }
}

fn claim<R: Host>(
    rt: &R,
    deed: Deed,
    i: usize,
    number: u32,
    name: &[u8],
    new: &[u8],
    input: &mut [u8],
    other: &mut [u8],
) -> Fate {
    let Some(file) = igc_console::open_new(rt, new) else {
        return Fate::Unwritten;
    };
    change(rt, deed, i, number, name, new, file, input, other)
}

// The new file stands beside the old one, with `.new` at the end of its name.
fn on_changed<R: Host>(
    rt: &R,
    deed: Deed,
    i: usize,
    number: u32,
    name: &[u8],
    input: &mut [u8],
    other: &mut [u8],
) -> u32 {
    let mut new = [0u8; 4608];
    let n = igc_notice::beside(name, &mut new);
    igc_fate::status_of(claim(rt, deed, i, number, name, &new[..n], input, other))
}

fn deed_at<R: Host>(rt: &R, i: usize) -> Option<Deed> {
    let mut word = [0u8; 4096];
    let k = igc_host::arg(rt, i, &mut word);
    igc_words::deed_of(&word[..k])
}

fn flight_at<R: Host>(rt: &R, i: usize) -> Option<u32> {
    let mut word = [0u8; 4096];
    let k = igc_host::arg(rt, i, &mut word);
    igc_words::flight_of(&word[..k])
}

// How many words there are for what is asked, the shelf's name among them.
fn words_of(deed: Deed) -> usize {
    match deed {
        Deed::Add => 4,
        Deed::Get | Deed::Remove => 3,
        Deed::List | Deed::Pack => 2,
    }
}

// The flight number that a word is, where one is asked for.
fn number_for<R: Host>(rt: &R, deed: Deed, i: usize) -> Option<u32> {
    match deed {
        Deed::List | Deed::Pack => Some(0),
        Deed::Add | Deed::Get | Deed::Remove => flight_at(rt, i),
    }
}

// What is asked of the shelf that a word names.
fn on_shelf<R: Host>(
    rt: &R,
    deed: Deed,
    dashes: usize,
    number: u32,
    input: &mut [u8],
    other: &mut [u8],
) -> u32 {
    let mut name = [0u8; 4096];
    let k = igc_host::arg(rt, igc_console::place_of(2, dashes), &mut name);
    let i = igc_console::place_of(5, dashes);
    match deed {
        Deed::List | Deed::Get => on_read(rt, deed, number, &name[..k], input),
        _ => on_changed(rt, deed, i, number, &name[..k], input, other),
    }
}

// The verb shelf, by the n words that the program was started with: a shelf's name, what is asked of it, and for that a flight number and a file. `input` takes the shelf and `other` the
// file. The answer is the exit status: 0 done, 1 refused, 2 not all was read or written, or wrong words.
pub fn run<R: Host>(rt: &R, n: usize, input: &mut [u8], other: &mut [u8]) -> u32 {
    let names = igc_console::names_from(rt, 2, n);
    let dashes = names.dashes;
    let Some(deed) = deed_at(rt, igc_console::place_of(3, dashes)) else {
        return igc_console::refuse_words(rt);
    };
    if names.count != words_of(deed) {
        return igc_console::refuse_words(rt);
    }
    let Some(number) = number_for(rt, deed, igc_console::place_of(4, dashes)) else {
        return igc_console::refuse_words(rt);
    };
    on_shelf(rt, deed, dashes, number, input, other)
}
