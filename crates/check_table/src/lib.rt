// A line that was judged: entered in the table of the lines' offsets, or the check stops there.
#![tactic(auto)]

ghost use Rattle.std.specs.Prelude.{◌≤◌, ◌≡◌};
ghost use Rattle.check_state.specs.States.{in_next};
ghost use Rattle.check_table.specs.Turns.{room_of, EntryPut};
ghost use Rattle.check_table.specs.Entering.{good_line, Turned, LineLeft};

use rules::{Reason, Refusal, State};

// Puts a line's offset into the lent table, if one is lent, behind those of the lines before it: whether the table has room for it. Where it has none, the table stays.
pub fn put_entry(lent: bool, table: &mut [u32], lines: u32, at: u32) -> bool
    ensures { EntryPut lent table.old lines at result table.new }
{
    if !lent {
        return true;
    }
    let n = lines as usize;
    if table.len() <= n {
        return false;
    }
    table[n] = at;
    true
}

// A refusal in the line that comes after those of the state.
fn in_next(reason: Reason, byte: u32, st: State) -> Refusal
    requires { st.flight.lines ≤ 16777216 }
    ensures { result ≡ in_next reason byte st }
{
    Refusal {
        reason,
        line: st.flight.lines + 1,
        byte,
    }
}

// How far the check has come: the place of the next line, and the state there.
#[derive(Clone, Copy)]
pub struct Reached {
    pub at: usize,
    pub state: State,
}

// A good line gets its entry in the table, or stops the check where none is left.
fn enter(
    lent: bool,
    table: &mut [u32],
    at: u32,
    st: State,
    next: usize,
    after: State,
) -> Result<Reached, Refusal>
    requires { st.flight.lines ≤ 16777216 }
    ensures { Turned (good_line (room_of lent table.old) st next after) lent table.old at st result table.new }
{
    let lines = st.flight.lines;
    if !put_entry(lent, table, lines, at) {
        return Err(in_next(Reason::TableFull, 0, st));
    }
    Ok(Reached {
        at: next,
        state: after,
    })
}

// A line that was judged after those of the state, with the place behind it: it is entered, or it stops the check. Refused with 17 where the state's count of lines
// is past a file's most bytes.
pub fn leave(
    judged: Result<State, Refusal>,
    lent: bool,
    table: &mut [u32],
    at: u32,
    st: State,
    next: usize,
) -> Result<Reached, Refusal>
    ensures { LineLeft judged lent table.old at st next result table.new }
{
    if 16777216 < st.flight.lines {
        return Err(file_lines::unplaced(Reason::BadValue));
    }
    match judged {
        Ok(after) => enter(lent, table, at, st, next, after),
        Err(why) => Err(in_next(why.reason, why.byte, st)),
    }
}
