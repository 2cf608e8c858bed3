// A file: its two checks, the usual one and the strict one, the usual one without a table, a line by its number, a reading place over its lines; two files merged.
ghost use Rattle.c_files.specs.Calls.{UsuallyChecked, StrictlyChecked, CountAnswered};
ghost use Rattle.c_places.specs.Calls.{LineAnswered, StepAnswered};
ghost use Rattle.c_flights.specs.Merging.{MergeAnswered};

// The usual check of a whole file, with the table of its lines' offsets.
#[unsafe(no_mangle)]
pub extern "C" fn hive_check(file: &[u8], table: &mut [u32], answer: &mut [u64]) -> u32
    ensures { UsuallyChecked file.now table.old answer.old result table.new answer.new }
{
    c_files::check(file, table, answer)
}

// The strict check, which takes only a signed file.
#[unsafe(no_mangle)]
pub extern "C" fn hive_check_strict(file: &[u8], table: &mut [u32], answer: &mut [u64]) -> u32
    ensures { StrictlyChecked file.now table.old answer.old result table.new answer.new }
{
    c_files::check_strict(file, table, answer)
}

// The usual check without a table.
#[unsafe(no_mangle)]
pub extern "C" fn hive_count(file: &[u8], answer: &mut [u64]) -> u32
    ensures { CountAnswered file.now answer.old result answer.new }
{
    c_files::count(file, answer)
}

// A line of the file by its number.
#[unsafe(no_mangle)]
pub extern "C" fn hive_line(file: &[u8], table: &[u32], number: usize, answer: &mut [u64]) -> u32
    ensures { LineAnswered file.now table.now number answer.old result answer.new }
{
    c_places::line(file, table, number, answer)
}

// The line at a reading place, and the place after it.
#[unsafe(no_mangle)]
pub extern "C" fn hive_step(file: &[u8], place: usize, answer: &mut [u64]) -> u32
    ensures { StepAnswered file.now place answer.old result answer.new }
{
    c_places::step(file, place, answer)
}

// Two files merged into an output: the length, or the refusal and whose it is (1, 2, or 0 for neither). 17 where the answer has another length; then nothing is changed.
#[unsafe(no_mangle)]
pub extern "C" fn hive_merge(first: &[u8], second: &[u8], out: &mut [u8], answer: &mut [u64]) -> u32
    ensures { MergeAnswered first.now second.now out.old answer.old result out.new answer.new }
{
    c_flights::merge(first, second, out, answer)
}
