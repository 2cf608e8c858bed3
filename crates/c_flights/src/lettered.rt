// The call from C that puts what each line of a whole file is into a lent list of bytes.
ghost use Rattle.c_flights.specs.Lettered.{KindsAnswered};

use c_answers::SIZE;

// A byte for each line of a file put into a list, its letter or the mark of a note: how many lines there are; or the file's own refusal, then 18 where the list is too short, and then the list is not
// changed. 17 where the answer has another length; then nothing is changed.
pub fn kinds(file: &[u8], list: &mut [u8], answer: &mut [u64]) -> u32
    ensures { KindsAnswered file.now list.old answer.old result list.new answer.new }
{
    if answer.len() != SIZE {
        return 17;
    }
    let kinded = kinds::kinds(file, list);
    c_answers::give(answer, c_answers::count(kinded))
}
