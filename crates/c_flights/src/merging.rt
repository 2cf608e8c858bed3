// The call from C that merges two files into a lent output.
ghost use Rattle.std.specs.Prelude.{◌≡◌};
ghost use Rattle.notes_merge.specs.Merge.{merge_told};
ghost use Rattle.c_flights.specs.Merging.{refused_of, merge_numbers, MergeAnswered};

use c_answers::{Numbers, SIZE};
use notes_merge::Brought;
use rules::Refusal;

// A file's refusal in numbers: also which file's, 1 or 2.
fn refused_of(why: Refusal, file: u64) -> Numbers
    ensures { result ≡ refused_of why file }
{
    let number = c_answers::number(why);
    let line = why.line as u64;
    let byte = why.byte as u64;
    Numbers {
        number,
        values: [line, byte, 0, file, 0, 0, 0, 0, 0, 0, 0, 0, 0, 0, 0, 0],
    }
}

// The numbers of a merge.
fn numbers(b: Brought) -> Numbers
    ensures { result ≡ merge_numbers (merge_told b) }
{
    match b {
        Brought::Whole(size) => c_answers::accepted(&[size as u64]),
        Brought::First(why) => refused_of(why, 1),
        Brought::Second(why) => refused_of(why, 2),
        Brought::Neither(why) => c_answers::refused(why),
    }
}

// Two files merged into an output: the length, or the refusal and whose it is (1, 2, or 0 for neither). 17 where the answer has another length; then nothing is changed.
pub fn merge(first: &[u8], second: &[u8], out: &mut [u8], answer: &mut [u64]) -> u32
    ensures { MergeAnswered first.now second.now out.old answer.old result out.new answer.new }
{
    if answer.len() != SIZE {
        return 17;
    }
    let brought = notes_merge::merge(first, second, out);
    c_answers::give(answer, numbers(brought))
}
