// The whole track of a file in one call: `plan` checks the file and says how many fixes there are, `track_step::stride` reads them one after the other, and `track` stores them into
// a lent list. Only `track` touches the list.
#![tactic(auto)]

ghost use Rattle.track.specs.Tracks.{CoursePlanned, FileTracked};

use rules::{Refusal, Seal};
use track_course::Course;
use track_rules::Record;

// What is to be stored into a list of `room` records: how many fixes the file has, and where their reading starts. Refused with the usual check's refusal (no table is lent, so
// 15 is not met), then with 18 where the file has more fixes.
pub fn plan(file: &[u8], room: usize) -> Course
    ensures { CoursePlanned file.now room result }
{
    let checked = check_file::check_untabled(Seal::Usual, file);
    let outcome = checked.outcome;
    let flight = checked.flight;
    match outcome {
        Err(why) => track_course::refused(why),
        Ok(()) => track_course::for_flight(flight, room),
    }
}

// All fixes of a file as records from the list's front on: how many there are. Refused with the usual check's refusal, then with 18 where the list is shorter than the number
// of B lines. No record is changed where refused, and records past the count stay.
pub fn track(file: &[u8], list: &mut [Record]) -> Result<usize, Refusal>
    ensures { FileTracked file.now list.old result list.new }
{
    let p = plan(file, list.len());
    let mut from = p.start;
    for i in 0..p.count {
        let s = track_step::stride(file, from);
        list[i] = s.found;
        from = s.next;
    }
    p.answer
}
