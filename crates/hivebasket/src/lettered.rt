// What each line of a whole file is, in a lent list of bytes.
ghost use Rattle.c_flights.specs.Lettered.{KindsAnswered};

// A byte for each line, its letter or the mark of a note: how many lines there are; or the file's own refusal, then 18 where the list is too short, and then the list is not changed. 17 where the answer
// has another length; then nothing is changed.
#[unsafe(no_mangle)]
pub extern "C" fn hive_kinds(file: &[u8], list: &mut [u8], answer: &mut [u64]) -> u32
    ensures { KindsAnswered file.now list.old answer.old result list.new answer.new }
{
    c_flights::kinds(file, list, answer)
}
