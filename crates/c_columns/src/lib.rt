// The calls from C that look into the entries of a reading, and those on a layout that is given as the text of its own line.
#![tactic(auto)]

ghost use Rattle.rules.specs.Refusals.{result_told};
ghost use Rattle.std.specs.Prelude.{◌∷◌, [], ◌≡◌, length};
ghost use Rattle.c_columns.specs.Values.{integers_of};
ghost use Rattle.c_columns.specs.Calls.{LookAnswered, NumberAnswered, EntryAnswered, PresenceAnswered};

use c_answers::SIZE;
use rules::{Refusal, Signed};

mod rows;
mod values;

pub use rows::listed;

// The look for a code into the entries that a reading gave: where the column's text stands.
pub fn look(
    line: &[u8],
    entries: &[u64],
    code0: u8,
    code1: u8,
    code2: u8,
    answer: &mut [u64],
) -> u32
    ensures { LookAnswered line.now entries.now (code0 ∷ code1 ∷ code2 ∷ []) answer.old result answer.new }
{
    let code = [code0, code1, code2];
    c_answers::give(answer, values::column(c_look::column(line, entries, code)))
}

// A column's number, or 0.
fn put_number(number: &mut [i64], read: Result<Signed, Refusal>)
    requires { length number.old ≡ 1 }
    ensures { number.new ≡ integers_of (result_told read) }
{
    match read {
        Ok(z) => {
            let value = z.value;
            number[0] = value;
        }
        Err(_) => number[0] = 0,
    }
}

// That column as a whole number.
pub fn look_number(
    line: &[u8],
    entries: &[u64],
    code0: u8,
    code1: u8,
    code2: u8,
    answer: &mut [u64],
    number: &mut [i64],
) -> u32
    ensures { NumberAnswered line.now entries.now (code0 ∷ code1 ∷ code2 ∷ []) answer.old number.old result answer.new number.new }
{
    if answer.len() != SIZE {
        return 17;
    }
    if number.len() != 1 {
        return 17;
    }
    let code = [code0, code1, code2];
    let read = c_look::number(line, entries, code);
    put_number(number, read);
    c_answers::give(answer, values::signed(read))
}

// Column n of an I, a J or an M line, counted from 1.
pub fn entry(layout: &[u8], n: usize, answer: &mut [u64]) -> u32
    ensures { EntryAnswered layout.now n answer.old result answer.new }
{
    c_answers::give(answer, values::entry(c_given::entry(layout, n)))
}

// Which listed codes an I line carries.
pub fn presence(layout: &[u8], answer: &mut [u64]) -> u32
    ensures { PresenceAnswered layout.now answer.old result answer.new }
{
    c_answers::give(answer, c_answers::presence(c_given::presence(layout)))
}
