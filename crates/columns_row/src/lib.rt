// The numbers of some columns of a line, put one after the other into a lent list. They have room there as a whole, or nothing changes.
#![tactic(auto)]

ghost use Rattle.std.specs.Prelude.{◌+◌, ◌*◌, ◌≤◌, ◌≡◌, length};
ghost use Rattle.std.proofs.lemmas.List.Edits.{sets};
ghost use Rattle.rules.specs.Numbers.{whole_of};
ghost use Rattle.columns_row.specs.Cells.{marked, row_from, RowPut};

use rules::Signed;

// The number that a text spells; the least number of 64 bits where it spells none.
fn number_of(text: &[u8]) -> Signed
    ensures { result ≡ marked (whole_of text.now) }
{
    byte_number::whole(text).unwrap_or(Signed { value: i64::MIN })
}

// The numbers of n columns of a line from a place of the list on, by the places of their first and last bytes.
fn fill_row(line: &[u8], places: &[u8], n: usize, list: &mut [i64], at: usize)
    requires { (n * 2 ≤ length places.now) × (at + n ≤ length list.old) }
    ensures { list.new ≡ sets list.old at (row_from n line.now places.now) }
{
    for i in 0..n {
        let z = number_of(layout_column::text_of(line, places[i * 2], places[i * 2 + 1]));
        list[at + i] = z.value;
    }
}

// The numbers of a line's columns from a place of the list on, where all have room. Of each column `places` has its first and its last byte, counted from 1; a column whose text is no number has the
// least number of 64 bits. Nothing changes where they have no room.
pub fn put_row(line: &[u8], places: &[u8], list: &mut [i64], at: usize)
    ensures { RowPut line.now places.now at list.old list.new }
{
    let n = places.len() / 2;
    if list.len() < n || list.len() - n < at {
        return;
    }
    fill_row(line, places, n, list, at);
}
