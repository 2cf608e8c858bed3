// The numbers of some columns of a whole file in one call, row by row: `columns` checks the file, finds where the columns that are asked for stand, goes over the lines by their known lengths and puts
// the numbers of each line of the family into a lent list.
#![tactic(auto)]

ghost use Rattle.std.specs.Prelude.{None, ◌≤◌, ◌<◌, ◌≡◌, length};
ghost use Rattle.std.proofs.lemmas.List.Edits.{sets};
ghost use Rattle.rules.specs.Families.{count_of};
ghost use Rattle.rules.specs.Files.{verdict};
ghost use Rattle.rules.specs.Refusals.{says};
ghost use Rattle.rules.specs.Split.{lines_of};
ghost use Rattle.columns.specs.Columns.{columns_seal, grid_room, grid_in, grid_of, GridTold, FileColumned};
ghost use Rattle.columns.specs.Lines.{SizesGiven, by_size, EndBySizes, Sized, rows_by, Found};

use file_lines::Ended;
use rules::{Counts, Extra, Family, Flight, Layouts, Reason, Refusal, Seal};

// How many bytes the lines of each family have.
#[derive(Clone, Copy)]
pub struct Sizes {
    pub b: usize,
    pub k: usize,
    pub n: usize,
}

// How many bytes the lines of each family have, by the layouts of a file.
pub fn sizes_of(layouts: Layouts) -> Sizes
    ensures { SizesGiven layouts result }
{
    let b = layout::line_length(Family::B, layouts.b) as usize;
    let k = layout::line_length(Family::Extra(Extra::K), layouts.k) as usize;
    let n = layout::line_length(Family::Extra(Extra::N), layouts.n) as usize;
    Sizes { b, k, n }
}

fn count_of(family: Family, counts: Counts) -> usize
    ensures { (result ≡ count_of family counts) × (result ≤ 4294967295) }
{
    match family {
        Family::B => counts.b as usize,
        Family::Extra(Extra::K) => counts.k as usize,
        Family::Extra(Extra::N) => counts.n as usize,
    }
}

// Where a line of so many bytes ends; at the file's end where it is shorter than that.
fn by_size(file: &[u8], at: usize, size: usize) -> usize
    requires { at ≤ length file.now }
    ensures { result ≡ by_size (length file.now) at size }
{
    if file.len() - at < size {
        return file.len();
    }
    at + size
}

// Where the line at a place ends, of lines that have these sizes: a line of a family by its size, at the file's end at most, any other where its text ends. From the file's end on it is the place itself.
pub fn end_of(file: &[u8], at: usize, sizes: Sizes) -> usize
    ensures { EndBySizes file.now at sizes result }
{
    if file.len() <= at {
        return at;
    }
    match file[at] {
        b'B' => by_size(file, at, sizes.b),
        b'K' => by_size(file, at, sizes.k),
        b'N' => by_size(file, at, sizes.n),
        _ => match file_lines::line_end(file, at) {
            Ended::At(e) => e,
            Ended::Broken(e) => e,
        },
    }
}

// The numbers of each line with this letter, by the places of their columns, from the list's front on.
fn fill(file: &[u8], letter: u8, sizes: Sizes, places: &[u8], list: &mut [i64])
    requires { (13 < letter) × Sized sizes (lines_of file.now) × (length (rows_by letter places.now (lines_of file.now)) ≤ length list.old) }
    ensures { list.new ≡ sets list.old 0 (rows_by letter places.now (lines_of file.now)) }
{
    let width = places.len() / 2;
    let mut at = 0;
    let mut put = 0;
    // No `for`: the place jumps from line to line, by the lengths that the layouts tell.
    while at < file.len() {
        let end = end_of(file, at, sizes);
        if file[at] == letter {
            columns_row::put_row(&file[at..end], places, list, put);
            put += width;
        }
        at = end + 2;
    }
}

// The columns that stand at these spots, of an accepted file: stored where the list has room for them, else 18.
fn store(
    file: &[u8],
    flight: Flight,
    family: Family,
    codes: &[u8],
    spots: [u8; 26],
    list: &mut [i64],
) -> Result<usize, Refusal>
    requires { Found file.now flight family codes.now spots }
    ensures { GridTold file.now codes.now (grid_room flight family codes.now (length list.old)) list.old result list.new }
{
    let n = count_of(family, flight.counts);
    let k = codes.len() / 3;
    if list.len() < n * k {
        return Err(file_lines::unplaced(Reason::NoRoom));
    }
    let sizes = sizes_of(flight.layouts);
    let end = k * 2;
    fill(
        file,
        layout_family::line_letter(family),
        sizes,
        &spots[0..end],
        list,
    );
    Ok(n)
}

// The columns of a family of an accepted file: 17 where the codes are none, then 19, then 18.
fn in_family(
    file: &[u8],
    flight: Flight,
    family: Family,
    codes: &[u8],
    list: &mut [i64],
) -> Result<usize, Refusal>
    requires { verdict columns_seal file.now None ≡ says flight }
    ensures { GridTold file.now codes.now (grid_in flight family codes.now (length list.old)) list.old result list.new }
{
    let places = columns_asked::ask(check_state::layout_of(family, flight.layouts), codes);
    places.outcome?;
    store(file, flight, family, codes, places.spots, list)
}

// The columns of an accepted file: 17 where the letter is of no family.
fn of_flight(
    file: &[u8],
    flight: Flight,
    letter: u8,
    codes: &[u8],
    list: &mut [i64],
) -> Result<usize, Refusal>
    requires { verdict columns_seal file.now None ≡ says flight }
    ensures { GridTold file.now codes.now (grid_of flight letter codes.now (length list.old)) list.old result list.new }
{
    let Some(family) = layout_family::family(&[letter]) else {
        return Err(file_lines::unplaced(Reason::BadValue));
    };
    in_family(file, flight, family, codes, list)
}

// The numbers of up to 13 columns of each line of a family, B, K or N, by the codes' three bytes each, from the list's front on, row by row: how many lines of that family there are. A text that is no number
// has the least number of 64 bits. Refused with the usual check's refusal (no table is lent, so 15 is not met), then with 17 where the letter is none of the three or the codes are none, over 13, no three
// bytes each or one comes twice, then with 19 where the file's layout for that family has one of them not, then with 18 where the list is shorter than the lines times the codes. No number is changed where
// refused, and numbers past the last row stay.
pub fn columns(file: &[u8], letter: u8, codes: &[u8], list: &mut [i64]) -> Result<usize, Refusal>
    ensures { FileColumned file.now letter codes.now list.old result list.new }
{
    let checked = check_file::check_untabled(Seal::Usual, file);
    checked.outcome?;
    of_flight(file, checked.flight, letter, codes, list)
}
