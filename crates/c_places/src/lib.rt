// The calls from C on where a line of a file stands: by its number, and at a reading place over the lines.
#![tactic(auto)]

ghost use Rattle.c_places.specs.Calls.{LineAnswered, StepAnswered};

use file_cursor::Cursor;

mod values;

// A line of the file by its number.
pub fn line(file: &[u8], table: &[u32], number: usize, answer: &mut [u64]) -> u32
    ensures { LineAnswered file.now table.now number answer.old result answer.new }
{
    c_answers::give(
        answer,
        values::line(file_lines::bounds(file, table, number)),
    )
}

// The line at a reading place, and the place after it.
pub fn step(file: &[u8], place: usize, answer: &mut [u64]) -> u32
    ensures { StepAnswered file.now place answer.old result answer.new }
{
    let cursor = Cursor { at: place };
    c_answers::give(answer, values::step(cursor.step(file)))
}
