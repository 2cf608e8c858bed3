// The call from C on a whole file without a table of its lines' offsets.
ghost use Rattle.c_files.specs.Calls.{CountAnswered};

use c_answers::SIZE;
use rules::Seal;

// The usual check of a whole file without a table: the values are those of `check`, and 15 is not met. Refused with 17, and nothing changed, where the answer has another length; else as the file is.
pub fn count(file: &[u8], answer: &mut [u64]) -> u32
    ensures { CountAnswered file.now answer.old result answer.new }
{
    if answer.len() != SIZE {
        return 17;
    }
    let checked = check_file::check_untabled(Seal::Usual, file);
    c_answers::give(answer, c_figures::numbers(checked))
}
