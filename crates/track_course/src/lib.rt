// The course of a track, by what the check says of a file: how many fixes are to be stored, and where their reading starts.
#![tactic(auto)]

ghost use Rattle.track_course.specs.Courses.{StartGiven, CourseRefused, fix_size, FlightPlanned};
ghost use Rattle.std.specs.Prelude.{◌≡◌};

use rules::{Family, Flight, Layout, Reason, Refusal};
use track_rules::Progress;

// The answer on a file, how many fixes are to be stored, none where it is refused, and where the reading starts.
#[derive(Clone, Copy)]
pub struct Course {
    pub answer: Result<usize, Refusal>,
    pub count: usize,
    pub start: Progress,
}

// Before the first line of a file whose B lines have so many bytes and this layout.
fn set_out(size: usize, layout: Layout) -> Progress
    ensures { StartGiven size layout result }
{
    Progress {
        at: 0,
        lines: 0,
        clock: 0,
        day: 0,
        size,
        finer: line_finer::finer_of(layout),
    }
}

// The course of a file that is refused: nothing is stored.
pub fn refused(why: Refusal) -> Course
    ensures { CourseRefused why result }
{
    Course {
        answer: Err(why),
        count: 0,
        start: set_out(0, layout::empty_layout()),
    }
}

// How many bytes the B lines of a flight have; 0 for a layout that is not allowed, which no file has.
fn fix_size(flight: Flight) -> usize
    ensures { result ≡ fix_size flight }
{
    let layouts = flight.layouts;
    layout::length(Family::B, layouts.b).unwrap_or(0)
}

// The course of an accepted file, for a list of `room` records. 18 where the list has no room for its fixes.
pub fn for_flight(flight: Flight, room: usize) -> Course
    ensures { FlightPlanned flight room result }
{
    let counts = flight.counts;
    let layouts = flight.layouts;
    let count = counts.b as usize;
    if room < count {
        return refused(file_lines::unplaced(Reason::NoRoom));
    }
    Course {
        answer: Ok(count),
        count,
        start: set_out(fix_size(flight), layouts.b),
    }
}
