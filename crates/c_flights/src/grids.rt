// The call from C that puts columns of a whole file into a lent list of numbers.
ghost use Rattle.c_flights.specs.Grids.{ColumnsAnswered};

use c_answers::SIZE;

// The numbers of up to 13 columns of each line of a family put into a list, row by row: how many lines there are; or the file's own refusal, then 17 where the letter or the codes are none, then 19 where
// the file's layout has one of them not, then 18 where the list is too short, and then the list is not changed. 17 where the answer has another length; then nothing is changed.
pub fn columns(file: &[u8], letter: u8, codes: &[u8], list: &mut [i64], answer: &mut [u64]) -> u32
    ensures { ColumnsAnswered file.now letter codes.now list.old answer.old result list.new answer.new }
{
    if answer.len() != SIZE {
        return 17;
    }
    let columned = columns::columns(file, letter, codes, list);
    c_answers::give(answer, c_answers::count(columned))
}
