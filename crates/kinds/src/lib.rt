// What each line of a whole file is, in one call: `kinds` checks the file, goes over its lines by their known lengths and puts a byte for each into a lent list, the line's letter or the mark of a note.
#![tactic(auto)]

ghost use Rattle.std.specs.Prelude.{None, ◌≤◌, ◌≡◌, length};
ghost use Rattle.std.proofs.lemmas.List.Edits.{sets};
ghost use Rattle.rules.specs.Choice.{part};
ghost use Rattle.rules.specs.Files.{verdict};
ghost use Rattle.rules.specs.Refusals.{says};
ghost use Rattle.rules.specs.Split.{lines_of};
ghost use Rattle.kinds.specs.Kinds.{kinds_seal, kinds_in, KindsTold, FileKinded};
ghost use Rattle.kinds.specs.Letters.{letters_of, notes_from, mark_of, marked, Ready, LettersPut};

use columns::Sizes;
use rules::{Flight, Reason, Refusal, Seal};

// The letter of each line, from the list's front on: how many lines come before the notes.
fn letters(file: &[u8], sizes: Sizes, list: &mut [u8]) -> usize
    requires { Ready sizes (lines_of file.now) × (length (letters_of (lines_of file.now)) ≤ length list.old) }
    ensures { LettersPut (lines_of file.now) list.old result list.new }
{
    let mut at = 0;
    let mut put = 0;
    let mut last = 0;
    // No `for`: the place jumps from line to line, by the lengths that the layouts tell.
    while at < file.len() {
        let end = columns::end_of(file, at, sizes);
        let letter = file[at];
        list[put] = letter;
        put += 1;
        if letter == b'G' {
            last = put;
        }
        at = end + 2;
    }
    if last == 0 {
        return put;
    }
    last
}

// The byte of a line behind the last G line, by its letter.
fn mark_of(letter: u8) -> u8
    ensures { result ≡ mark_of letter }
{
    if letter == b'L' { b'l' } else { letter }
}

// The bytes from a place up to another made those of lines behind the last G line.
fn mark(list: &mut [u8], from: usize, to: usize)
    requires { to ≤ length list.old }
    ensures { list.new ≡ sets list.old from (marked (part from to list.old)) }
{
    for i in from..to {
        list[i] = mark_of(list[i]);
    }
}

// The kinds of an accepted file's lines: stored where the list has room for them, else 18.
fn of_flight(file: &[u8], flight: Flight, list: &mut [u8]) -> Result<usize, Refusal>
    requires { verdict kinds_seal file.now None ≡ says flight }
    ensures { KindsTold file.now (kinds_in flight (length list.old)) list.old result list.new }
{
    let n = flight.lines as usize;
    if list.len() < n {
        return Err(file_lines::unplaced(Reason::NoRoom));
    }
    let from = letters(file, columns::sizes_of(flight.layouts), list);
    mark(list, from, n);
    Ok(n)
}

// A byte for each line of a file, from the list's front on: the line's letter, but a small l for a note, an L line behind the last G line; how many lines there are. A file without G lines has no notes.
// Refused with the usual check's refusal (no table is lent, so 15 is not met), then with 18 where the list has fewer bytes than the file has lines. No byte is changed where refused, and bytes past the
// last line's stay.
pub fn kinds(file: &[u8], list: &mut [u8]) -> Result<usize, Refusal>
    ensures { FileKinded file.now list.old result list.new }
{
    let checked = check_file::check_untabled(Seal::Usual, file);
    checked.outcome?;
    of_flight(file, checked.flight, list)
}
