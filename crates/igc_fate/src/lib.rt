// What became of a file, and with which status the programs igc and badge end.
#![tactic(auto)]

ghost use Rattle.igc_fate.specs.Status.{StatusGiven, WorseGiven};

// What became of a file.
#[derive(Clone, Copy, Debug, PartialEq, Eq)]
pub enum Fate {
    Accepted,
    Refused,
    Unread,
    Unwritten,
}

// The status of a call on one file.
#[tactic(auto, unfolding(crate::specs::Status::status_of))]
pub fn status_of(fate: Fate) -> u32
    ensures { StatusGiven fate result }
{
    match fate {
        Fate::Accepted => 0,
        Fate::Refused => 1,
        Fate::Unread | Fate::Unwritten => 2,
    }
}

// The status of two calls in one: 2 wins over 1, and 1 over 0.
#[tactic(auto, unfolding(crate::specs::Status::worse))]
pub fn worse(a: u32, b: u32) -> u32
    ensures { WorseGiven a b result }
{
    a.max(b)
}
