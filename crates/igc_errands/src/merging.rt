// Two copies of a file by their names: merged into a new file, which takes no other file's place.
use igc_console::{fate_of, print_noted, print_refused, print_unmerged};
use igc_fate::Fate;
use igc_host::Host;
use igc_named::read_named;
use notes_merge::Brought;
use std::io;

// How many notes each copy has, and the new file.
fn print_notes<R: Host>(
    rt: &R,
    first: &[u8],
    second: &[u8],
    new: &[u8],
    one: &[u8],
    two: &[u8],
    made: &[u8],
) -> io::Result<()> {
    print_noted(rt, first, notes_common::notes(one))?;
    print_noted(rt, second, notes_common::notes(two))?;
    print_noted(rt, new, notes_common::notes(made))
}

fn keep<R: Host>(
    rt: &R,
    first: &[u8],
    second: &[u8],
    new: &[u8],
    one: &[u8],
    two: &[u8],
    made: &[u8],
) -> Fate {
    if !igc_console::make(rt, new, made) {
        return Fate::Unwritten;
    }
    fate_of(
        rt,
        print_notes(rt, first, second, new, one, two, made),
        Fate::Accepted,
    )
}

fn bring<R: Host>(
    rt: &R,
    first: &[u8],
    second: &[u8],
    new: &[u8],
    one: &[u8],
    two: &[u8],
    out: &mut [u8],
) -> Fate {
    match notes_merge::merge(one, two, out) {
        Brought::Whole(size) => keep(rt, first, second, new, one, two, &out[..size]),
        Brought::First(why) => fate_of(rt, print_refused(rt, first, one, why), Fate::Refused),
        Brought::Second(why) => fate_of(rt, print_refused(rt, second, two, why), Fate::Refused),
        Brought::Neither(why) => fate_of(rt, print_unmerged(rt, first, second, why), Fate::Refused),
    }
}

// Two copies of a file by their names, merged into a new file: it is made, and the notes of all three are counted; or why one of the two is refused, or both together, and then no file is
// made. `input` and `other` each take one of the two, and have one byte more than the most that a file may have; `out` takes the new one. The answer tells what became of it.
pub fn merge_named<R: Host>(
    rt: &R,
    first: &[u8],
    second: &[u8],
    new: &[u8],
    input: &mut [u8],
    other: &mut [u8],
    out: &mut [u8],
) -> Fate {
    let Ok(n) = read_named(rt, first, input) else {
        return Fate::Unread;
    };
    let Ok(k) = read_named(rt, second, other) else {
        return Fate::Unread;
    };
    bring(rt, first, second, new, &input[..n], &other[..k], out)
}
