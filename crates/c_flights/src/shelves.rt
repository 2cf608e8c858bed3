// The calls from C on a shelf of flights in a lent buffer.
ghost use Rattle.rules.specs.Refusals.{result_told};
ghost use Rattle.std.specs.Prelude.{◌≡◌};
ghost use Rattle.c_answers.specs.Answers.{in_numbers};
ghost use Rattle.c_flights.specs.Shelves.{body_numbers, no_numbers, AddAnswered, AskAnswered, RemoveAnswered, PackAnswered};

use c_answers::{Numbers, SIZE};
use rules::Refusal;
use shelf_rules::Extent;

// The start and the length of the body that was asked for.
fn asked(a: Result<Extent, Refusal>) -> Numbers
    ensures { result ≡ in_numbers body_numbers (result_told a) }
{
    match a {
        Ok(Extent { start, size }) => c_answers::accepted(&[start as u64, size as u64]),
        Err(why) => c_answers::refused(why),
    }
}

// No value: that it is done, or why not.
fn done(o: Result<(), Refusal>) -> Numbers
    ensures { result ≡ in_numbers no_numbers (result_told o) }
{
    match o {
        Ok(()) => c_answers::accepted(&[]),
        Err(why) => c_answers::refused(why),
    }
}

// A file put on the shelf under a flight number: the start of its body; or 27 where the buffer is no shelf, the file's own refusal by the usual check, 28, 29 or 30, and then the buffer is
// not changed. 17 where the answer has another length; then nothing is changed.
pub fn shelf_add(buffer: &mut [u8], number: u32, file: &[u8], answer: &mut [u64]) -> u32
    ensures { AddAnswered buffer.old number file.now answer.old result buffer.new answer.new }
{
    if answer.len() != SIZE {
        return 17;
    }
    let told = shelf::add(buffer, number, file);
    c_answers::give(answer, c_answers::count(told))
}

// Where the body of a flight number stands: its start and its length; or 27, then 31. 17 where the answer has another length; then nothing is changed.
pub fn shelf_ask(buffer: &[u8], number: u32, answer: &mut [u64]) -> u32
    ensures { AskAnswered buffer.now number answer.old result answer.new }
{
    c_answers::give(answer, asked(shelf::ask(buffer, number)))
}

// The entry of a flight number zeroed; or 27, then 31, and then the buffer is not changed. 17 where the answer has another length; then nothing is changed.
pub fn shelf_remove(buffer: &mut [u8], number: u32, answer: &mut [u64]) -> u32
    ensures { RemoveAnswered buffer.old number answer.old result buffer.new answer.new }
{
    if answer.len() != SIZE {
        return 17;
    }
    let told = shelf::remove(buffer, number);
    c_answers::give(answer, done(told))
}

// The bodies moved to the front in order of start, without gaps; or 27, and then the buffer is not changed. 17 where the answer has another length; then nothing is changed.
pub fn shelf_pack(buffer: &mut [u8], answer: &mut [u64]) -> u32
    ensures { PackAnswered buffer.old answer.old result buffer.new answer.new }
{
    if answer.len() != SIZE {
        return 17;
    }
    let told = shelf_pack::pack(buffer);
    c_answers::give(answer, done(told))
}
