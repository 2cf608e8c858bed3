// A reading place that steps over the lines of a file.
#![tactic(auto)]

ghost use Rattle.file_cursor.specs.Steps.{LineStepped, AtFirst};

use file_lines::{crlf_from, unplaced};
use rules::{Reason, Refusal};

// A reading place over the lines of a file: how many bytes stand before it.
#[derive(Clone, Copy, Debug, PartialEq, Eq)]
pub struct Cursor {
    pub at: usize,
}

// What a step finds: a line, by how many bytes stand before it and before its CR LF, with the place after it; or that none is left, with the place as it was.
#[derive(Clone, Copy)]
pub enum Step {
    Line {
        start: usize,
        end: usize,
        next: Cursor,
    },
    Done {
        next: Cursor,
    },
    Refused(Refusal),
}

impl Cursor {
    // The place before the first line.
    pub fn new() -> Self
        ensures { AtFirst result }
    {
        Cursor { at: 0 }
    }

    // The next line, with the place after it, or that none is left. Refused with 17 where the place is past the end, or bytes remain and no CR LF comes after it.
    #[tactic(auto, using(rules::proofs::Links::fields, file_lines::proofs::Places::refuses_unplaced, file_lines::proofs::Places::found_fits), unfolding(rules::specs::Split::step_at, crate::specs::Steps::step_told))]
    pub fn step(self, file: &[u8]) -> Step
        ensures { LineStepped file.now self.at result }
    {
        let at = self.at;
        if file.len() < at {
            return Step::Refused(unplaced(Reason::BadValue));
        }
        if at == file.len() {
            return Step::Done {
                next: Cursor { at },
            };
        }
        let Some(end) = crlf_from(file, at) else {
            return Step::Refused(unplaced(Reason::BadValue));
        };
        Step::Line {
            start: at,
            end,
            next: Cursor { at: end + 2 },
        }
    }
}
