// The call from C that tells a file's declaration: its head in the answer, its points in a lent list of numbers.
ghost use Rattle.rules.specs.Refusals.{result_told};
ghost use Rattle.std.specs.Prelude.{◌≡◌};
ghost use Rattle.c_answers.specs.Answers.{accepting, in_numbers};
ghost use Rattle.c_flights.specs.Declarations.{declared_numbers, DeclarationAnswered};

use c_answers::{Numbers, SIZE};
use declaration::Declared;
use rules::Refusal;

// What a declaration says, in numbers.
fn values(d: Declared) -> Numbers
    ensures { result ≡ accepting (declared_numbers d) }
{
    let head = d.head;
    let date = head.declared;
    let flight = c_lines::planned_date(head.flight);
    c_answers::accepted(&[
        date.day as u64,
        date.month as u64,
        date.year as u64,
        head.time as u64,
        flight.day as u64,
        flight.month as u64,
        flight.year as u64,
        head.task as u64,
        head.turns as u64,
        d.points as u64,
        d.line as u64,
        d.text as u64,
        d.length as u64,
    ])
}

fn numbers(read: Result<Declared, Refusal>) -> Numbers
    ensures { result ≡ in_numbers declared_numbers (result_told read) }
{
    match read {
        Ok(d) => values(d),
        Err(why) => c_answers::refused(why),
    }
}

// A file's declaration: what its head says in the answer, and six numbers of each point in the list; or the file's own refusal, then 18 where the list is too short, and then the list is not changed.
// 17 where the answer has another length; then nothing is changed.
pub fn declaration(file: &[u8], list: &mut [u64], answer: &mut [u64]) -> u32
    ensures { DeclarationAnswered file.now list.old answer.old result list.new answer.new }
{
    if answer.len() != SIZE {
        return 17;
    }
    let told = declaration::declaration(file, list);
    c_answers::give(answer, numbers(told))
}
