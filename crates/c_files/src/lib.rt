// The calls from C on a whole file: the usual check and the strict one, with the table of its lines' offsets, and the usual one without a table.
#![tactic(auto)]

ghost use Rattle.c_files.specs.Calls.{CheckAnswered, UsuallyChecked, StrictlyChecked};

use c_answers::SIZE;
use rules::Seal;

mod counts;

pub use counts::count;

fn checked(seal: Seal, file: &[u8], table: &mut [u32], answer: &mut [u64]) -> u32
    ensures { CheckAnswered seal file.now table.old answer.old result table.new answer.new }
{
    if answer.len() != SIZE {
        return 17;
    }
    let checked = check_file::check(seal, file, table);
    c_answers::give(answer, c_figures::numbers(checked))
}

// The usual check of a whole file, with the table of its lines' offsets. Refused with 17, and nothing changed, where the answer has another length; else as the file is.
pub fn check(file: &[u8], table: &mut [u32], answer: &mut [u64]) -> u32
    ensures { UsuallyChecked file.now table.old answer.old result table.new answer.new }
{
    checked(Seal::Usual, file, table, answer)
}

// The strict check, which takes only a signed file; in all else as the usual one.
pub fn check_strict(file: &[u8], table: &mut [u32], answer: &mut [u64]) -> u32
    ensures { StrictlyChecked file.now table.old answer.old result table.new answer.new }
{
    checked(Seal::Strict, file, table, answer)
}
