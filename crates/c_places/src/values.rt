// Where a line of a file stands, in the numbers of an answer.
ghost use Rattle.rules.specs.Refusals.{result_told};
ghost use Rattle.std.specs.Prelude.{◌≡◌};
ghost use Rattle.file_cursor.specs.Steps.{step_told};
ghost use Rattle.c_answers.specs.Answers.{in_numbers};
ghost use Rattle.c_places.specs.Calls.{bounds_numbers, step_numbers};

use c_answers::{Numbers, accepted, between, refused};
use file_cursor::Step;
use rules::{Bounds, Refusal};

// A line of the file.
pub(crate) fn line(read: Result<Bounds, Refusal>) -> Numbers
    ensures { result ≡ in_numbers bounds_numbers (result_told read) }
{
    match read {
        Ok(Bounds { from, to }) => accepted(&[from as u64, between(from, to)]),
        Err(why) => refused(why),
    }
}

// A step over the lines.
pub(crate) fn step(s: Step) -> Numbers
    ensures { result ≡ in_numbers step_numbers (step_told s) }
{
    match s {
        Step::Line { start, end, next } => {
            accepted(&[start as u64, between(start, end), next.at as u64, 1])
        }
        Step::Done { next } => accepted(&[0, 0, next.at as u64]),
        Step::Refused(why) => refused(why),
    }
}
