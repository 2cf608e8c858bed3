// A summary beside a flight, made or brought up to date in a lent list of numbers: twelve for the whole flight, then twelve for each run of 256 fixes. The file is checked
// once; `track_course::for_flight` says where its fixes are read from, and `summary_reckon::of_fixes` reads them.
#![tactic(auto)]

ghost use Rattle.summary.specs.Summaries.{FileSummed, FileDated};

use rules::{Date, Refusal, Seal};

// The answer of a summary, and the file's date: day, month and year 0 where the check refuses the file.
#[derive(Clone, Copy)]
pub struct Dated {
    pub answer: Result<usize, Refusal>,
    pub date: Date,
}

// Makes a summary as `summary` does, and answers the file's date too, so that who shows both has the file checked once. A file has no more fixes than bytes, so that the course is
// never short of room.
pub fn with_date(file: &[u8], old: u32, list: &mut [i32]) -> Dated
    ensures { FileDated file.now old list.old result list.new }
{
    let checked = check_file::check_untabled(Seal::Usual, file);
    let outcome = checked.outcome;
    let flight = checked.flight;
    let date = flight.date;
    if let Err(why) = outcome {
        return Dated {
            answer: Err(why),
            date,
        };
    }
    let course = track_course::for_flight(flight, file.len());
    let start = course.start;
    match course.answer {
        Err(why) => Dated {
            answer: Err(why),
            date,
        },
        Ok(count) => Dated {
            answer: summary_reckon::of_fixes(file, start, count, old as usize, list),
            date,
        },
    }
}

// Makes a summary of a file's fixes in a list of numbers: afresh where `old` is 0, or up to date from one that was made for `old` fixes. The list gets twelve numbers for the whole flight,
// then twelve for each run of 256 fixes. Run old / 256 and those after it are put, and the whole; earlier runs and all numbers past the last run stay. Answers the number of runs.
// Refuses with the usual check's refusal (no table is lent, so 15 is not met), then with 17 where the file has fewer fixes than `old`, then with 18 where the list is too short. The list
// is then unchanged.
pub fn summary(file: &[u8], old: u32, list: &mut [i32]) -> Result<usize, Refusal>
    ensures { FileSummed file.now old list.old result list.new }
{
    with_date(file, old, list).answer
}
