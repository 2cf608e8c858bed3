// One line judged after those before it: whether its kind may come, and what the rules of its kind say.
#![tactic(auto)]

ghost use Rattle.std.specs.Prelude.{◌≤◌};
ghost use Rattle.rules.specs.Order.{ruled, judge};
ghost use Rattle.rules.specs.Families.{count_of};
ghost use Rattle.rules.specs.declared.Family.{Family};
ghost use Rattle.check_state.specs.States.{Few};
ghost use Rattle.check_settle.specs.Settled.{JudgedTold};
ghost use Rattle.check_judge.specs.Lines.{LineJudged};

use rules::{Reason, Refusal, Role, State};

// A line by its role: 7 to 14 or 22 to 25. The state counts it already.
fn ruled_line(r: Role, line: &[u8], st: State) -> Result<State, Refusal>
    requires { (f : Family) → count_of f st.flight.counts ≤ 16777216 }
    ensures { JudgedTold (ruled r line.now st) result }
{
    match r {
        Role::Opens => check_settle::after_outcome(line_check::recorder(line), st),
        Role::Heads => check_after::judge_header(line, st),
        Role::Tells(family) => check_after::judge_layout(family, line, st),
        Role::Columned(family) => check_after::judge_columned(family, line, st),
        Role::Declares => check_after::judge_declaration(line, st),
        Role::Event => check_settle::after_time(line_check::event(line), st),
        Role::Satellites => check_settle::after_time(line_check::satellites(line), st),
        Role::Differential => check_settle::after_outcome(line_check::differential(line), st),
        Role::Seals => check_carried::judge_seal(line, st),
        Role::Remark => check_carried::judge_remark(line, st),
        Role::Other => check_carried::judge_other(line, st),
        Role::NoRole => check_settle::refused_at(Reason::Kind, 1),
    }
}

// One line after those before it: 4 to 14 or 22 to 25. Refused with 17 where the state's counts are not few.
pub fn judge_line(line: &[u8], st: State) -> Result<State, Refusal>
    ensures { LineJudged line.now st result }
{
    if !check_state::has_few(st) {
        return check_settle::refused_at(Reason::BadValue, 0);
    }
    judge_few(line, st)
}

fn judge_few(line: &[u8], st: State) -> Result<State, Refusal>
    requires { Few st }
    ensures { JudgedTold (judge line.now st) result }
{
    if line.len() < 1 {
        return check_settle::refused_at(Reason::EmptyLine, 1);
    }
    let role = line_order::role_of(line_kind::kind_of(line[0]));
    if !line_order::is_role(role) {
        return check_settle::refused_at(Reason::Kind, 1);
    }
    let Some(stage) = line_order::order_of(role, st) else {
        return check_settle::refused_at(Reason::Order, 1);
    };
    ruled_line(role, line, check_state::moved_to(stage, st))
}
