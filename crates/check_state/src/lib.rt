// The state that the lines so far have left: at the start, and what a line changes in it.
#![tactic(auto)]

ghost use Rattle.std.specs.Prelude.{◌≡◌};
ghost use Rattle.rules.specs.Families.{with_layout};
ghost use Rattle.check_state.specs.States.{FewTest, NoFlight, BeforeAll, Moved, Dated, LayoutKept, LaidOut, CountedIn, SignedOff, Begun, Pointed, Clocked};

use rules::{Counts, Date, Extra, Family, Flight, Head, Layout, Layouts, State};

// Whether the counts are few: no more than a file has bytes, at most.
#[tactic(auto, unfolding(crate::specs::States::has_few))]
pub fn has_few(st: State) -> bool
    ensures { FewTest st result }
{
    st.flight.lines <= 16777216 && check_counts::are_few(st.flight.counts)
}

// What stands beside a refused file.
pub fn no_flight() -> Flight
    ensures { NoFlight result }
{
    let empty = rules_values::empty_layout();
    Flight {
        date: Date {
            day: 0,
            month: 0,
            year: 0,
        },
        layouts: Layouts {
            b: empty,
            k: empty,
            n: empty,
        },
        lines: 0,
        counts: Counts { b: 0, k: 0, n: 0 },
        signed: false,
    }
}

// The state before the first line.
pub fn start_state() -> State
    ensures { BeforeAll result }
{
    State {
        stage: line_order::AT_START,
        declared: false,
        points: 0,
        clock: 0,
        flight: no_flight(),
    }
}

// The state with one line more, in the part of the file that it leads to. A count past a file's most bytes is left, and so below.
pub fn moved_to(stage: u8, st: State) -> State
    ensures { Moved stage st result }
{
    if 16777216 < st.flight.lines {
        return st;
    }
    let lines = st.flight.lines + 1;
    State {
        stage,
        flight: Flight { lines, ..st.flight },
        ..st
    }
}

// The state with the date of the file.
pub fn dated_to(date: Date, st: State) -> State
    ensures { Dated date st result }
{
    State {
        flight: Flight { date, ..st.flight },
        ..st
    }
}

// The layout of a family among those of a file.
pub fn layout_of(family: Family, layouts: Layouts) -> Layout
    ensures { LayoutKept family layouts result }
{
    match family {
        Family::B => layouts.b,
        Family::Extra(Extra::K) => layouts.k,
        Family::Extra(Extra::N) => layouts.n,
    }
}

fn with_layout(family: Family, layout: Layout, layouts: Layouts) -> Layouts
    ensures { result ≡ with_layout family layout layouts }
{
    match family {
        Family::B => Layouts {
            b: layout,
            ..layouts
        },
        Family::Extra(Extra::K) => Layouts {
            k: layout,
            ..layouts
        },
        Family::Extra(Extra::N) => Layouts {
            n: layout,
            ..layouts
        },
    }
}

// The state with the layout of a family.
pub fn laid_out(family: Family, layout: Layout, st: State) -> State
    ensures { LaidOut family layout st result }
{
    let layouts = with_layout(family, layout, st.flight.layouts);
    State {
        flight: Flight {
            layouts,
            ..st.flight
        },
        ..st
    }
}

// The state with one line of a family more.
pub fn counted_in(family: Family, st: State) -> State
    ensures { CountedIn family st result }
{
    let counts = check_counts::one_more(family, st.flight.counts);
    State {
        flight: Flight {
            counts,
            ..st.flight
        },
        ..st
    }
}

// The state after a G line.
pub fn signed_off(st: State) -> State
    ensures { SignedOff st result }
{
    State {
        flight: Flight {
            signed: true,
            ..st.flight
        },
        ..st
    }
}

// The state in a declaration, of whose points none has come.
pub fn begun_by(head: Head, st: State) -> State
    ensures { Begun head st result }
{
    State {
        declared: true,
        points: u32::from(head.turns) + 4,
        ..st
    }
}

// The state with one point less to come.
pub fn pointed_by(st: State) -> State
    ensures { Pointed st result }
{
    if st.points < 1 {
        return st;
    }
    State {
        points: st.points - 1,
        ..st
    }
}

// The state after a line of this time.
pub fn clocked_to(t: u32, st: State) -> State
    ensures { Clocked t st result }
{
    State { clock: t, ..st }
}
