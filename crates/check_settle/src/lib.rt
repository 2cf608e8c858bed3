// What a line leaves, by what its reading says and by the time order: the state after it, or its refusal.
#![tactic(auto)]

ghost use Rattle.rules.specs.Order.{timed};
ghost use Rattle.check_settle.specs.Settled.{JudgedTold, LinePassed, LineRefused, RefusedAt, OutcomeJudged, TimeJudged};

use rules::{Reason, Refusal, State};

// A line that is accepted and leaves this state.
#[tactic(auto, unfolding(rules::specs::Refusals::result_told))]
pub fn passed(st: State) -> Result<State, Refusal>
    ensures { LinePassed st result }
{
    Ok(st)
}

// A line that is refused.
#[tactic(auto, unfolding(rules::specs::Refusals::result_told))]
pub fn refused(why: Refusal) -> Result<State, Refusal>
    ensures { LineRefused why result }
{
    Err(why)
}

// A line that is refused for a reason, at one of its bytes.
pub fn refused_at(reason: Reason, byte: u32) -> Result<State, Refusal>
    ensures { RefusedAt reason byte result }
{
    refused(Refusal {
        reason,
        line: 0,
        byte,
    })
}

// A line of this time, in the time order.
fn timed_at(t: u32, st: State) -> Result<State, Refusal>
    ensures { JudgedTold (timed t st) result }
{
    if check_clock::is_back(st.clock, t) {
        return refused_at(Reason::Back, 2);
    }
    passed(check_state::clocked_to(t, st))
}

// After a line that leaves this state where it is accepted.
pub fn after_outcome(outcome: Result<(), Refusal>, st: State) -> Result<State, Refusal>
    ensures { OutcomeJudged outcome st result }
{
    outcome?;
    passed(st)
}

// After a line whose time reads so: 14 at byte 2 where the time goes back, else the state with the clock at it; or the reading's own refusal.
pub fn after_time(read: Result<u32, Refusal>, st: State) -> Result<State, Refusal>
    ensures { TimeJudged read st result }
{
    timed_at(read?, st)
}
