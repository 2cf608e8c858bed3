// The state after an H line, a line that tells a layout, a C line, and a line with columns.
#![tactic(auto)]

ghost use Rattle.check_after.specs.Judges.{HeaderJudged, LayoutJudged, DeclarationJudged, ColumnedJudged};

use rules::{Family, Refusal, State};

// An H line: the second line of the file is the date line.
pub fn judge_header(line: &[u8], st: State) -> Result<State, Refusal>
    ensures { HeaderJudged line.now st result }
{
    if st.flight.lines == 2 {
        let date = line_check::date_line(line)?;
        return Ok(check_state::dated_to(date, st));
    }
    check_settle::after_outcome(line_check::header(line), st)
}

// A line that tells the layout of a family.
pub fn judge_layout(family: Family, line: &[u8], st: State) -> Result<State, Refusal>
    ensures { LayoutJudged family line.now st result }
{
    let layout = layout::layout_line(family, line)?;
    Ok(check_state::laid_out(family, layout, st))
}

// A C line: a point where points are still to come, else the head of a declaration.
pub fn judge_declaration(line: &[u8], st: State) -> Result<State, Refusal>
    ensures { DeclarationJudged line.now st result }
{
    if st.points == 0 {
        let head = line_check::head_line(line)?;
        return Ok(check_state::begun_by(head, st));
    }
    line_check::point_line(line)?;
    Ok(check_state::pointed_by(st))
}

// A line of a family, with one more of them in the state.
pub fn judge_columned(family: Family, line: &[u8], st: State) -> Result<State, Refusal>
    ensures { ColumnedJudged family line.now st result }
{
    let flight = st.flight;
    let layout = check_state::layout_of(family, flight.layouts);
    check_settle::after_time(
        line_check::columned_line(family, line, layout),
        check_state::counted_in(family, st),
    )
}
