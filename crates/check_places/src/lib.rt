// What each place of a line with columns may hold, put down once for many lines; and a line held against it, many bytes at a time.
#![tactic(auto)]

ghost use Rattle.std.specs.Prelude.{◌≡◌, ◌+◌, ◌-◌, ◌*◌, ◌<◌, ◌≤◌, ◌&&◌, List, [], length, replicate, slice_set};
ghost use Rattle.std.proofs.lemmas.List.Edits.{sets};
ghost use Rattle.check_places.specs.Places.{may_stand, first_mark, next_mark, column_marks, end_marks, columns_marks, low_marks, span_marks, other_marks, laid, PlacedTest, SecondsGiven, FixPlaces, ExtraPlaces};

// Three lists: from `low` on so many bytes as `span` says may stand at a place, and the one of `other`. Behind the line any byte may.
#[derive(Clone, Copy)]
pub struct Places {
    pub low: [u8; 112],
    pub span: [u8; 112],
    pub other: [u8; 112],
}

// What one of the lists has for a digit, for the first byte of a column that may be a minus, for a text's byte, for CR and LF, and behind the line.
#[derive(Clone, Copy)]
pub struct Marks {
    pub digit: u8,
    pub minus: u8,
    pub text: u8,
    pub cr: u8,
    pub lf: u8,
    pub any: u8,
}

// How many bytes more than the low one may stand at each place of a B line before its columns, and of a K line.
const FIX_SPANS: [u8; 35] = [
    0, 2, 9, 5, 9, 5, 9, 8, 9, 5, 9, 9, 9, 9, 0, 1, 9, 9, 5, 9, 9, 9, 9, 0, 0, 9, 9, 9, 9, 9, 9, 9,
    9, 9, 9,
];

const EXTRA_SPANS: [u8; 7] = [0, 2, 9, 5, 9, 5, 9];

// ---- a list of marks

// A mark put at a place; where the list ends before it, the list stays.
#[tactic(auto, using(crate::proofs::Laws::set_past))]
fn mark(list: &mut [u8], at: usize, v: u8)
    ensures { list.new ≡ slice_set list.old at v }
{
    if at < list.len() {
        list[at] = v;
    }
}

// The same mark put so many times.
#[tactic(auto, using(crate::proofs::Laws::run_end, crate::proofs::Laws::run_first))]
fn mark_run(list: &mut [u8], at: usize, n: usize, v: u8)
    requires { (at ≤ 65536) × (n ≤ 255) }
    ensures { list.new ≡ sets list.old at (replicate n v) }
{
    for i in 0..n {
        mark(list, at + i, v);
    }
}

// The marks of the bytes before the columns.
#[tactic(auto, using(crate::proofs::Laws::long_set, crate::proofs::Laws::front_step, crate::proofs::Laws::front_end))]
fn mark_front(list: &mut [u8], front: &[u8])
    ensures { list.new ≡ sets list.old 0 front.now }
{
    for (i, v) in front.iter().enumerate() {
        mark(list, i, *v);
    }
}

// The mark of a column's first byte, by what the column must hold. A minus alone is no number.
#[tactic(auto, unfolding(crate::specs::Places::first_mark))]
fn first_mark(m: Marks, rule: u8, more: usize) -> u8
    ensures { result ≡ first_mark m rule more }
{
    match rule {
        0 => m.text,
        2 if 1 <= more => m.minus,
        _ => m.digit,
    }
}

// The mark of a column's other bytes.
#[tactic(auto, unfolding(crate::specs::Places::next_mark))]
fn next_mark(m: Marks, rule: u8) -> u8
    ensures { result ≡ next_mark m rule }
{
    if rule == 0 { m.text } else { m.digit }
}

// How many bytes a column has behind its first one.
fn more_of(first: u8, last: u8) -> usize
    ensures { (result ≡ last - first) × (result ≤ 255) }
{
    usize::from(last.saturating_sub(first))
}

// The marks of a column.
fn mark_column(list: &mut [u8], at: usize, m: Marks, more: usize, rule: u8)
    requires { (at < 65536) × (more ≤ 255) }
    ensures { list.new ≡ sets list.old at (column_marks m more rule) }
{
    mark(list, at, first_mark(m, rule, more));
    mark_run(list, at + 1, more, next_mark(m, rule));
}

// The marks of CR and LF.
fn mark_end(list: &mut [u8], at: usize, m: Marks)
    requires { at ≤ 65536 }
    ensures { list.new ≡ sets list.old at (end_marks m) }
{
    mark(list, at, m.cr);
    mark(list, at + 1, m.lf);
}

// The marks of the columns of a pattern, and of CR and LF behind them.
fn mark_columns(list: &mut [u8], from: usize, m: Marks, pattern: &[u8])
    requires { (from ≤ 35) × (length pattern.now ≤ 39) }
    ensures { list.new ≡ sets list.old from (columns_marks m pattern.now) }
{
    let mut at = from;
    for k in 0..pattern.len() / 3 {
        let first = pattern[3 * k];
        let last = pattern[3 * k + 1];
        let rule = pattern[3 * k + 2];
        let more = more_of(first, last);
        mark_column(list, at, m, more, rule);
        at += more + 1;
    }
    mark_end(list, at, m);
}

// A list of marks: those of the bytes before the columns, of the columns of a pattern, and of CR and LF.
#[tactic(auto, unfolding(crate::specs::Places::laid))]
fn lay(front: &[u8], m: Marks, pattern: &[u8]) -> [u8; 112]
    requires { length front.now ≤ 35 }
    ensures { result ≡ laid front.now m pattern.now }
{
    let mut list = [m.any; 112];
    if 39 < pattern.len() {
        return list;
    }
    mark_front(&mut list, front);
    mark_columns(&mut list, front.len(), m, pattern);
    list
}

// ---- the three lists

fn low_marks() -> Marks
    ensures { result ≡ low_marks }
{
    Marks {
        digit: 48,
        minus: 48,
        text: 45,
        cr: 13,
        lf: 10,
        any: 0,
    }
}

fn span_marks() -> Marks
    ensures { result ≡ span_marks }
{
    Marks {
        digit: 9,
        minus: 9,
        text: 80,
        cr: 0,
        lf: 0,
        any: 255,
    }
}

fn other_marks() -> Marks
    ensures { result ≡ other_marks }
{
    Marks {
        digit: 48,
        minus: 45,
        text: 32,
        cr: 13,
        lf: 10,
        any: 0,
    }
}

// The places of a B line whose columns have this pattern. Longitudes up to 199 degrees may stand there.
#[tactic(auto, unfolding(rules::specs::Choice::bytes))]
pub fn fix_places(pattern: &[u8]) -> Places
    ensures { FixPlaces pattern.now result }
{
    let low = lay(b"B0000000000000N00000000EA0000000000", low_marks(), pattern);
    let span = lay(&FIX_SPANS, span_marks(), pattern);
    let other = lay(
        b"B0000000000000S00000000WV0000000000",
        other_marks(),
        pattern,
    );
    Places { low, span, other }
}

// The places of a K line.
#[tactic(auto, unfolding(rules::specs::Choice::bytes))]
pub fn extra_places(pattern: &[u8]) -> Places
    ensures { ExtraPlaces pattern.now result }
{
    let low = lay(b"K000000", low_marks(), pattern);
    let span = lay(&EXTRA_SPANS, span_marks(), pattern);
    let other = lay(b"K000000", other_marks(), pattern);
    Places { low, span, other }
}

// ---- a line held against them

// Whether a byte may stand at a place. The two bytes from the minus to the closing brace that are not mild stand nowhere.
#[tactic(auto, using(crate::proofs::Laws::near_is), unfolding(crate::specs::Places::may_stand))]
fn may_stand(low: u8, span: u8, other: u8, b: u8) -> bool
    ensures { result ≡ may_stand low span other b }
{
    ((std::num::wrapping_sub_u8(b, low) <= span) | (b == other)) & (b != 92) & (b != 94)
}

// Whether all bytes so far may stand at their places, and this one may.
fn still(ok: bool, low: u8, span: u8, other: u8, b: u8) -> bool
    ensures { result ≡ (ok && may_stand low span other b) }
{
    ok & may_stand(low, span, other, b)
}

// Whether each byte at the front of a text may stand at its place, as many places as `low` has. It has no way out before the last one, so that the compiler takes many bytes at a
// time.
#[tactic(auto, using(crate::proofs::Laws::kept_short, crate::proofs::Laws::kept_few, crate::proofs::Laws::kept_ended))]
pub fn is_placed(text: &[u8], low: &[u8], span: &[u8], other: &[u8]) -> bool
    ensures { PlacedTest text.now low.now span.now other.now result }
{
    let n = low.len();
    if span.len() < n || other.len() < n || text.len() < n {
        return false;
    }
    let mut ok = true;
    for i in 0..n {
        ok = still(ok, low[i], span[i], other[i], text[i]);
    }
    ok
}

// Ten times a byte, and another.
fn pair(a: u8, b: u8) -> u32
    ensures { (result ≡ a * 10 + b) × (result ≤ 2805) }
{
    u32::from(a) * 10 + u32::from(b)
}

// The seconds of the day that the six bytes behind a line's first one tell, where they are digits; 86,400 where there are fewer bytes or they are worth less than zeros are.
#[tactic(auto, using(crate::proofs::Laws::seconds_less, crate::proofs::Laws::seconds_enough), unfolding(crate::specs::Places::seconds_of))]
pub fn seconds(line: &[u8]) -> u32
    ensures { SecondsGiven line.now result }
{
    if line.len() < 7 {
        return 86400;
    }
    let sum = pair(line[1], line[2]) * 3600 + pair(line[3], line[4]) * 60 + pair(line[5], line[6]);
    if sum < 1933008 {
        return 86400;
    }
    sum - 1933008
}
