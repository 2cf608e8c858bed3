// The call from C on an H line.
ghost use Rattle.rules.specs.Refusals.{result_told};
ghost use Rattle.std.specs.Prelude.{◌≡◌};
ghost use Rattle.c_answers.specs.Answers.{accepting, in_numbers};
ghost use Rattle.c_lines.specs.Headers.{header_numbers, HeaderAnswered};

use c_answers::Numbers;
use line_read::HeaderLine;
use rules::Refusal;

// What an H line says, in numbers.
fn values(h: HeaderLine) -> Numbers
    ensures { result ≡ accepting (header_numbers h) }
{
    c_answers::accepted(&[
        h.source as u64,
        h.first as u64,
        h.second as u64,
        h.third as u64,
        h.text as u64,
        h.length as u64,
    ])
}

fn numbers(read: Result<HeaderLine, Refusal>) -> Numbers
    ensures { result ≡ in_numbers header_numbers (result_told read) }
{
    match read {
        Ok(h) => values(h),
        Err(why) => c_answers::refused(why),
    }
}

// An H line taken apart: its source, the three characters of its code, and where its text stands.
pub fn header(line: &[u8], answer: &mut [u64]) -> u32
    ensures { HeaderAnswered line.now answer.old result answer.new }
{
    c_answers::give(answer, numbers(line_read::header(line)))
}
