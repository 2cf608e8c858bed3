// The call from C that keeps a summary of a file in a lent list of numbers.
ghost use Rattle.c_flights.specs.Summaries.{SummaryAnswered};

use c_answers::SIZE;

// A summary of a file made or brought up to date in a list of numbers: how many runs it has; or the file's own refusal, then 17 where the file has fewer fixes than `old`, then 18 where the
// list is too short, and then the list is not changed. 17 where the answer has another length; then nothing is changed.
pub fn summary(file: &[u8], old: u32, list: &mut [i32], answer: &mut [u64]) -> u32
    ensures { SummaryAnswered file.now old list.old answer.old result list.new answer.new }
{
    if answer.len() != SIZE {
        return 17;
    }
    let summed = summary::summary(file, old, list);
    c_answers::give(answer, c_answers::count(summed))
}
