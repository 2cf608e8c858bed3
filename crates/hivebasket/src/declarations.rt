// A file's declaration, its points in a lent list of numbers.
ghost use Rattle.c_flights.specs.Declarations.{DeclarationAnswered};

// What the head of a file's declaration says, in the answer, and six numbers of each of its points, in the list; or the file's own refusal, then 18 where the list is too short, and then the list is not
// changed. 17 where the answer has another length; then nothing is changed.
#[unsafe(no_mangle)]
pub extern "C" fn hive_declaration(file: &[u8], list: &mut [u64], answer: &mut [u64]) -> u32
    ensures { DeclarationAnswered file.now list.old answer.old result list.new answer.new }
{
    c_flights::declaration(file, list, answer)
}
