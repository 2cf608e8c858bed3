// A run of body lines that are surely good, taken by numbers alone: the state with its layouts stays where it is until the run ends.
#![tactic(auto)]

mod pace;
mod placed;

ghost use Rattle.std.specs.Prelude.{◌≤◌, true, ◌≡◌, length};
ghost use Rattle.rules.specs.Families.{first_start};
ghost use Rattle.rules.specs.Roles.{after_h, in_body};
ghost use Rattle.rules.specs.Layouts.{allowed};
ghost use Rattle.rules.specs.declared.Extra.TheVariants as extra;
ghost use Rattle.rules.specs.declared.Family.TheVariants as family;
ghost use Rattle.check_state.specs.States.{Few};
ghost use Rattle.check_ahead.specs.Paces.{paced, Known};
ghost use Rattle.check_ahead.specs.Runs.{MayRun, AllAllowed, Gauged, Ran};
ghost use Rattle.check_ahead.specs.Strides.{Reaches, FixLaid, ExtraLaid};

use check_clock::Pace;
use check_places::Places;
use pace::Form;
use rules::{Extra, Family, Flight, Layout, State};

// The place after a run, and the state there.
#[derive(Clone, Copy)]
pub struct Ahead {
    pub at: usize,
    pub state: State,
}

// The pace's place, and the state with its numbers.
fn ahead_at(p: Pace, st: State) -> Ahead
    ensures { result ≡ record { at = p.at; state = paced st p } }
{
    let flight = Flight {
        lines: p.lines,
        counts: p.counts,
        ..st.flight
    };
    Ahead {
        at: p.at,
        state: State {
            stage: p.stage,
            clock: p.clock,
            flight,
            ..st
        },
    }
}

// The numbers of a state, at a place.
fn pace_of(at: usize, st: State) -> Pace
    ensures { result ≡ record { at = at; stage = st.stage; clock = st.clock; lines = st.flight.lines; counts = st.flight.counts } }
{
    Pace {
        at,
        stage: st.stage,
        clock: st.clock,
        lines: st.flight.lines,
        counts: st.flight.counts,
    }
}

// The lines from a place on, as far as they are surely good and the table has room: B and K lines by their places as long as they can be, then one line by its kind.
fn run_strides(
    fix_places: &Places,
    extra_places: &Places,
    file: &[u8],
    lent: bool,
    table: &mut [u32],
    from: usize,
    fixes: Form<'_>,
    extras: Form<'_>,
    unsigned: Form<'_>,
    st: State,
) -> Ahead
    requires { (from ≤ length file.now) × (length file.now ≤ 16777216) × Few st × (st.points ≡ 0) × (after_h ≤ st.stage) × (st.stage ≤ in_body)
        × Known family.B st fixes.size fixes.pattern.now × Known (family.Extra extra.K) st extras.size extras.pattern.now × Known (family.Extra extra.N) st unsigned.size unsigned.pattern.now
        × FixLaid fixes.pattern.now fix_places.now.low fix_places.now.span fix_places.now.other × ExtraLaid extras.pattern.now extra_places.now.low extra_places.now.span extra_places.now.other
        × Reaches family.B st fixes.size × Reaches (family.Extra extra.K) st extras.size }
    ensures { Ran lent file.now table.old from st result table.new }
{
    let mut p = pace_of(from, st);
    // No `for`: the place jumps from line to line.
    while p.at < file.len() {
        p = placed::run_placed(
            fix_places,
            extra_places,
            file,
            lent,
            table,
            p,
            fixes.size,
            extras.size,
        );
        if file.len() <= p.at {
            return ahead_at(p, st);
        }
        let Some(next) = pace::take_line(file, p, fixes, extras, unsigned) else {
            return ahead_at(p, st);
        };
        if !check_table::put_entry(lent, table, p.lines, p.at as u32) {
            return ahead_at(p, st);
        }
        p = next;
    }
    ahead_at(p, st)
}

// The lines from a place on, as far as they are surely good and the table has room.
fn run_lines(
    file: &[u8],
    lent: bool,
    table: &mut [u32],
    from: usize,
    fixes: Form<'_>,
    extras: Form<'_>,
    unsigned: Form<'_>,
    st: State,
) -> Ahead
    requires { (from ≤ length file.now) × (length file.now ≤ 16777216) × Few st × (st.points ≡ 0) × (after_h ≤ st.stage) × (st.stage ≤ in_body)
        × Known family.B st fixes.size fixes.pattern.now × Known (family.Extra extra.K) st extras.size extras.pattern.now × Known (family.Extra extra.N) st unsigned.size unsigned.pattern.now }
    ensures { Ran lent file.now table.old from st result table.new }
{
    let fix_places = check_places::fix_places(fixes.pattern);
    let extra_places = check_places::extra_places(extras.pattern);
    run_strides(
        &fix_places,
        &extra_places,
        file,
        lent,
        table,
        from,
        fixes,
        extras,
        unsigned,
        st,
    )
}

// Whether body lines may come at a place of a file of allowed size, and the counts are few.
fn may_run(file: &[u8], from: usize, st: State) -> bool
    ensures { result ≡ true → MayRun file.now from st }
{
    if st.points != 0
        || st.stage < line_order::AFTER_H
        || line_order::IN_BODY < st.stage
        || 16777216 < file.len()
        || file.len() < from
    {
        return false;
    }
    check_state::has_few(st)
}

// Whether all layouts are allowed.
fn are_allowed(st: State) -> bool
    ensures { result ≡ true → AllAllowed st }
{
    let layouts = st.flight.layouts;
    layout::allowed(Family::B, layouts.b)
        && layout::allowed(Family::Extra(Extra::K), layouts.k)
        && layout::allowed(Family::Extra(Extra::N), layouts.n)
}

// What a run knows of the lines of a family: their length, and the pattern of their columns, in the first `end` bytes.
#[derive(Clone, Copy)]
pub struct Gauge {
    pub size: usize,
    pub end: usize,
    pub pattern: [u8; 39],
}

fn gauge_of(family: Family, layout: Layout) -> Gauge
    requires { allowed (first_start family) layout ≡ true }
    ensures { Gauged family layout result }
{
    let size = layout::line_length(family, layout) as usize;
    let end = 3 * layout.count;
    let pattern = check_sure::pattern(layout);
    Gauge { size, end, pattern }
}

// The lines from a place on where they may come, by what is known of their families.
fn run_known(
    file: &[u8],
    lent: bool,
    table: &mut [u32],
    from: usize,
    fix_gauge: Gauge,
    extra_gauge: Gauge,
    unsigned_gauge: Gauge,
    st: State,
) -> Ahead
    requires { MayRun file.now from st × AllAllowed st × Gauged family.B st.flight.layouts.b fix_gauge
        × Gauged (family.Extra extra.K) st.flight.layouts.k extra_gauge × Gauged (family.Extra extra.N) st.flight.layouts.n unsigned_gauge }
    ensures { Ran lent file.now table.old from st result table.new }
{
    let fixes = Form {
        size: fix_gauge.size,
        pattern: &fix_gauge.pattern[..fix_gauge.end],
    };
    let extras = Form {
        size: extra_gauge.size,
        pattern: &extra_gauge.pattern[..extra_gauge.end],
    };
    let unsigned = Form {
        size: unsigned_gauge.size,
        pattern: &unsigned_gauge.pattern[..unsigned_gauge.end],
    };
    run_lines(file, lent, table, from, fixes, extras, unsigned, st)
}

// The lines from a place on where they may come, with what the layouts say of them.
fn run_body(file: &[u8], lent: bool, table: &mut [u32], from: usize, st: State) -> Ahead
    requires { MayRun file.now from st × AllAllowed st }
    ensures { Ran lent file.now table.old from st result table.new }
{
    let layouts = st.flight.layouts;
    let b = gauge_of(Family::B, layouts.b);
    let k = gauge_of(Family::Extra(Extra::K), layouts.k);
    let n = gauge_of(Family::Extra(Extra::N), layouts.n);
    run_known(file, lent, table, from, b, k, n, st)
}

// The B, K, N, E, F and L lines from a place on, as far as they may come, are surely good and the table, if one is lent, has room: the place after them and the state
// there, with their offsets put into it. It may stop before any line; what it passed is passed as the check passes it.
pub fn run_ahead(file: &[u8], lent: bool, table: &mut [u32], from: usize, st: State) -> Ahead
    ensures { Ran lent file.now table.old from st result table.new }
{
    if !may_run(file, from, st) || !are_allowed(st) {
        return Ahead {
            at: from,
            state: st,
        };
    }
    run_body(file, lent, table, from, st)
}
