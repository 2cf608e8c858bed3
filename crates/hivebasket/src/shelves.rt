// A shelf of flights in a lent buffer.
ghost use Rattle.c_flights.specs.Shelves.{AddAnswered, AskAnswered, RemoveAnswered, PackAnswered};

// A file put on a shelf under a flight number: the start of its body; or 27, the file's own refusal by the usual check, 28, 29 or 30, and then the shelf is not changed. 17 where the
// answer has another length; then nothing is changed.
#[unsafe(no_mangle)]
pub extern "C" fn hive_shelf_add(
    shelf: &mut [u8],
    number: u32,
    file: &[u8],
    answer: &mut [u64],
) -> u32
    ensures { AddAnswered shelf.old number file.now answer.old result shelf.new answer.new }
{
    c_flights::shelf_add(shelf, number, file, answer)
}

// Where the body of a flight number stands; or 27, then 31. 17 where the answer has another length; then nothing is changed.
#[unsafe(no_mangle)]
pub extern "C" fn hive_shelf_ask(shelf: &[u8], number: u32, answer: &mut [u64]) -> u32
    ensures { AskAnswered shelf.now number answer.old result answer.new }
{
    c_flights::shelf_ask(shelf, number, answer)
}

// The entry of a flight number zeroed; or 27, then 31, and then the shelf is not changed. 17 where the answer has another length; then nothing is changed.
#[unsafe(no_mangle)]
pub extern "C" fn hive_shelf_remove(shelf: &mut [u8], number: u32, answer: &mut [u64]) -> u32
    ensures { RemoveAnswered shelf.old number answer.old result shelf.new answer.new }
{
    c_flights::shelf_remove(shelf, number, answer)
}

// The bodies moved to the front; or 27, and then the shelf is not changed. 17 where the answer has another length; then nothing is changed.
#[unsafe(no_mangle)]
pub extern "C" fn hive_shelf_pack(shelf: &mut [u8], answer: &mut [u64]) -> u32
    ensures { PackAnswered shelf.old answer.old result shelf.new answer.new }
{
    c_flights::shelf_pack(shelf, answer)
}
