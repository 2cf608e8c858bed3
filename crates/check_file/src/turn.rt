// One turn of the check of a file: the line at a place found, judged and entered in the table.
ghost use Rattle.std.specs.Prelude.{◌≡◌, drop};
ghost use Rattle.rules.specs.Split.{lines_of};
ghost use Rattle.check_table.specs.Turns.{room_of};
ghost use Rattle.check_table.specs.Entering.{Turned};
ghost use Rattle.check_file.specs.Turns.{may_take, MayTake, turn_in, TurnTaken};

use check_table::Reached;
use file_lines::Ended;
use rules::{Reason, Refusal, State};

// Whether a line may be taken: the place is in the file, the file is not too long, and the counts are few.
#[tactic(auto, unfolding(crate::specs::Turns::may_take))]
fn may_take(file: &[u8], at: usize, st: State) -> bool
    ensures { result ≡ may_take file.now at st }
{
    at < file.len() && file.len() <= 16777216 && check_state::has_few(st)
}

// The line at a place where one may be taken.
fn take_line(
    file: &[u8],
    lent: bool,
    table: &mut [u32],
    at: usize,
    st: State,
) -> Result<Reached, Refusal>
    requires { MayTake file.now at st }
    ensures { Turned (turn_in (room_of lent table.old) at st (lines_of (drop at file.now))) lent table.old at st result table.new }
{
    match file_lines::line_end(file, at) {
        Ended::Broken(end) => check_table::leave(
            check_settle::refused_at(Reason::LineEnd, (end - at + 1) as u32),
            lent,
            table,
            at as u32,
            st,
            at,
        ),
        Ended::At(end) => check_table::leave(
            check_judge::judge_line(&file[at..end], st),
            lent,
            table,
            at as u32,
            st,
            end + 2,
        ),
    }
}

// The line at a place of a file found, judged and entered in the table, if one is lent: the place behind it and the state there. Refused with 17 where the
// place is not in the file, the file is too long, or the state's counts are not few; else with 3 to 15 or 22 to 25. There is then no entry.
pub fn take(
    file: &[u8],
    lent: bool,
    table: &mut [u32],
    at: usize,
    st: State,
) -> Result<Reached, Refusal>
    ensures { TurnTaken file.now lent table.old at st result table.new }
{
    if !may_take(file, at, st) {
        return Err(file_lines::unplaced(Reason::BadValue));
    }
    take_line(file, lent, table, at, st)
}
