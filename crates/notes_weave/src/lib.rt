// The notes of two slices put one after the other: each slice is read in runs of up to 4,096 notes in order, and of the two that come next the one that comes first is put
// into the output, once where both have it.
#![tactic(auto)]

ghost use Rattle.std.specs.Prelude.{◌∷◌, [], ◌≤◌, ◌<◌, length};
ghost use Rattle.notes_weave.specs.Loom.{Ready, Fine, Fresh, Taken, Fills, Emitted, Chosen, Turned, Walked, NotesPut};

use notes_place::{Place, is_over};
use std::cmp::Ordering;

// A run that has a note, or no note is left.
fn ready(s: &[u8], heads: &mut [usize], p: Place) -> Place
    requires { Ready s.now heads.old p × (0 < length heads.old) }
    ensures { Fresh s.now heads.old p heads.new result }
{
    if p.i < p.n {
        return p;
    }
    let last = p.last;
    let n = notes_runs::refill(s, last, heads);
    Place { n, i: 0, last }
}

// The next note taken.
fn advance(s: &[u8], heads: &[usize], p: Place) -> Place
    requires { Ready s.now heads.now p × (p.i < p.n) }
    ensures { Taken s.now heads.now p result }
{
    let i = p.i;
    Place {
        n: p.n,
        i: i + 1,
        last: heads[i],
    }
}

// One byte put into the output, where it has room.
fn byte(out: &mut [u8], at: usize, b: u8)
    ensures { Fills out.old at (b ∷ []) out.new }
{
    if at < out.len() {
        out[at] = b;
    }
}

// A note with CR LF put into the output, where it has room. No place is past 562950037307392: that is 16,777,216 bytes, and 33,554,432 notes of up to 16,777,218 bytes each.
fn emit(s: &[u8], i: usize, out: &mut [u8], at: usize) -> usize
    requires { (length s.now ≤ 16777216) × (at ≤ 562950037307392) }
    ensures { Emitted s.now i out.old at out.new result }
{
    let mut x = i;
    let mut to = at;
    // counted by hand: it reads at one place and writes at another
    while notes_compare::in_text(s, x) {
        byte(out, to, s[x]);
        x += 1;
        to += 1;
    }
    byte(out, to, 13);
    byte(out, to + 1, 10);
    to + 2
}

// Whose note comes next: `Less` the first slice's, `Greater` the second's, `Equal` that of both.
fn which(a: &[u8], b: &[u8], ha: &[usize], hb: &[usize], x: Place, y: Place) -> Ordering
    requires { Fine a.now ha.now x × Fine b.now hb.now y × (x.n ≤ x.i → y.i < y.n) }
    ensures { Chosen a.now b.now x y result }
{
    let i = x.i;
    let j = y.i;
    if x.n <= i {
        return Ordering::Greater;
    }
    if y.n <= j {
        return Ordering::Less;
    }
    notes_compare::whose(a, ha[i], b, hb[j])
}

// Where both slices are read on, and where the output is written on.
#[derive(Clone, Copy)]
pub struct Turn {
    pub x: Place,
    pub y: Place,
    pub at: usize,
}

// The next note of the two put into the output.
fn take_turn(
    a: &[u8],
    b: &[u8],
    ha: &[usize],
    hb: &[usize],
    x: Place,
    y: Place,
    out: &mut [u8],
    at: usize,
) -> Turn
    requires { Fine a.now ha.now x × Fine b.now hb.now y × (x.n ≤ x.i → y.i < y.n) × (length a.now ≤ 16777216) × (length b.now ≤ 16777216) × (at ≤ 562950037307392) }
    ensures { Turned a.now b.now ha.now hb.now x y out.old at out.new result.x result.y result.at }
{
    match which(a, b, ha, hb, x, y) {
        Ordering::Greater => {
            let q = advance(b, hb, y);
            let to = emit(b, q.last, out, at);
            Turn { x, y: q, at: to }
        }
        Ordering::Less => {
            let p = advance(a, ha, x);
            let to = emit(a, p.last, out, at);
            Turn { x: p, y, at: to }
        }
        Ordering::Equal => {
            let p = advance(a, ha, x);
            let to = emit(a, p.last, out, at);
            let q = advance(b, hb, y);
            Turn { x: p, y: q, at: to }
        }
    }
}

// All notes of the two put into the output behind `from` bytes, where they have room; the place after them.
fn walk(a: &[u8], b: &[u8], from: usize, out: &mut [u8]) -> usize
    requires { (length a.now ≤ 16777216) × (length b.now ≤ 16777216) × (from ≤ 16777216) }
    ensures { Walked a.now b.now from out.old out.new result }
{
    let mut ha = [0usize; 4096];
    let mut hb = [0usize; 4096];
    let mut x = Place {
        n: 0,
        i: 0,
        last: a.len(),
    };
    let mut y = Place {
        n: 0,
        i: 0,
        last: b.len(),
    };
    let mut at = from;
    // No `for`: each turn goes on in one of two texts, or in both.
    loop {
        x = ready(a, &mut ha, x);
        y = ready(b, &mut hb, y);
        if is_over(x, y) {
            return at;
        }
        let t = take_turn(a, b, &ha, &hb, x, y, out, at);
        x = t.x;
        y = t.y;
        at = t.at;
    }
}

// The notes of two slices put into the output behind `from` bytes, as far as they have room: in order, each as often as in the slice that has it more often. The answer is the
// place after them all. It is 0, and the output stays as it is, where a slice or `from` is over 16,777,216 bytes.
pub fn put_notes(a: &[u8], b: &[u8], from: usize, out: &mut [u8]) -> usize
    ensures { NotesPut a.now b.now from out.old result out.new }
{
    if 16777216 < a.len() {
        return 0;
    }
    if 16777216 < b.len() {
        return 0;
    }
    if 16777216 < from {
        return 0;
    }
    walk(a, b, from, out)
}
