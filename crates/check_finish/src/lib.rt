// The answer on a file: refused, or what its lines have left at its end.
#![tactic(auto)]

ghost use Rattle.std.specs.Prelude.{◌≤◌, ◌≡◌};
ghost use Rattle.rules.specs.declared.Reason.TheVariants.{EndsEarly};
ghost use Rattle.check_state.specs.States.{in_next};
ghost use Rattle.check_finish.specs.Finishes.{FileRefused, Finished};

use rules::{Checked, Reason, Refusal, Seal, State};

// The answer on a file that is refused.
pub fn refused(why: Refusal) -> Checked
    ensures { FileRefused why result }
{
    Checked {
        outcome: Err(why),
        flight: check_state::no_flight(),
    }
}

// The refusal of a file that ends too soon, in the line after the last.
fn ends_early(st: State) -> Refusal
    requires { st.flight.lines ≤ 16777216 }
    ensures { result ≡ in_next EndsEarly 0 st }
{
    Refusal {
        reason: Reason::EndsEarly,
        line: st.flight.lines + 1,
        byte: 0,
    }
}

// The answer where all lines are good. An open declaration is refused, and so is a file that does not end as the seal demands. Refused with 17 where the state's
// count of lines is past a file's most bytes.
pub fn finished(seal: Seal, st: State) -> Checked
    ensures { Finished seal st result }
{
    if 16777216 < st.flight.lines {
        return refused(file_lines::unplaced(Reason::BadValue));
    }
    if st.points != 0 {
        return refused(ends_early(st));
    }
    if st.stage < line_order::ends_after(seal) {
        return refused(ends_early(st));
    }
    let flight = st.flight;
    Checked {
        outcome: Ok(()),
        flight,
    }
}
