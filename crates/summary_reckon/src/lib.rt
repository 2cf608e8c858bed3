// The summary of so many fixes of a file, reckoned in one pass, run by run: `fill` puts the numbers of each run and of the whole, and `of_fixes` says what is refused.
#![tactic(auto)]

ghost use Rattle.std.specs.Prelude.{◌*◌, ◌+◌, ◌≤◌, ◌≡◌};
ghost use Rattle.track_step.specs.Steps.{step_of};
ghost use Rattle.summary_reckon.specs.Filled.{leg_of, next_run, put_from, turned_leg, turned_list, filled};
ghost use Rattle.summary_reckon.specs.Reckoned.{FixesSummed};

use rules::{Reason, Refusal};
use summary_span::Sum;
use track_rules::Progress;

// What is told of some fixes, and where the reading of the next ones starts.
#[derive(Clone, Copy)]
pub struct Leg {
    pub sum: Sum,
    pub next: Progress,
}

// What is told of the next n fixes.
fn one_run(file: &[u8], from: Progress, n: usize) -> Leg
    ensures { result ≡ leg_of (step_of file.now) from n }
{
    let mut sum = summary_span::none();
    let mut next = from;
    for i in 0..n {
        let s = track_step::step(file, next);
        sum = summary_span::join(sum, summary_fix::alone(s.found));
        next = s.next;
    }
    Leg { sum, next }
}

// How many of the fixes that are left are in the next run.
fn next_run(left: usize) -> usize
    ensures { result ≡ next_run left }
{
    left.min(256)
}

// The numbers of run k put at their place, but for a run before `keep`.
fn put_from(list: &mut [i32], keep: usize, k: usize, n: usize, sum: Sum)
    requires { k ≤ 16777216 }
    ensures { list.new ≡ put_from keep k n sum list.old }
{
    if keep <= k {
        summary_slots::put_sum(list, 12 + 12 * k, n, sum);
    }
}

// Run k read, put and joined to what is told of all before it.
fn turn(file: &[u8], whole: Leg, left: usize, keep: usize, k: usize, list: &mut [i32]) -> Leg
    requires { k ≤ 16777216 }
    ensures { (result ≡ turned_leg (step_of file.now) left whole) × (list.new ≡ turned_list (step_of file.now) keep k left whole list.old) }
{
    let n = next_run(left);
    let run = one_run(file, whole.next, n);
    put_from(list, keep, k, n, run.sum);
    Leg {
        sum: summary_span::join(whole.sum, run.sum),
        next: run.next,
    }
}

// The fixes of a file read run by run: the numbers of each run from `keep` on put at their places, and at the front those of all.
fn fill(file: &[u8], start: Progress, count: usize, keep: usize, list: &mut [i32])
    requires { count ≤ 16777216 }
    ensures { list.new ≡ filled (step_of file.now) start count keep list.old }
{
    let mut whole = Leg {
        sum: summary_span::none(),
        next: start,
    };
    for k in 0..count.div_ceil(256) {
        whole = turn(file, whole, count - 256 * k, keep, k, list);
    }
    summary_slots::put_sum(list, 0, count, whole.sum);
}

// The summary of a file with so many fixes, read from `start` on. 17 where they are over 16,777,216, which no file has, or the old number is over them, then 18 where the list has fewer
// numbers than the summary; the list is then unchanged.
pub fn of_fixes(
    file: &[u8],
    start: Progress,
    count: usize,
    old: usize,
    list: &mut [i32],
) -> Result<usize, Refusal>
    ensures { FixesSummed (step_of file.now) start count old list.old result list.new }
{
    if 16777216 < count || count < old {
        return Err(file_lines::unplaced(Reason::BadValue));
    }
    let n = count.div_ceil(256);
    if list.len() < 12 * (1 + n) {
        return Err(file_lines::unplaced(Reason::NoRoom));
    }
    fill(file, start, count, old / 256, list);
    Ok(n)
}
