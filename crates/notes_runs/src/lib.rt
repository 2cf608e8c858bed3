// A run of notes: the places of the first notes that come after one, in order, found by one look at each note. A note starts at a place of the bytes and
// goes up to the first CR; the next one starts two bytes behind that.
#![tactic(auto)]

ghost use Rattle.std.specs.Prelude.{◌≡◌, eqb, true, ◌≤◌, ◌<◌, length, take, position};
ghost use Rattle.notes_sorted.specs.Sorted.{Sorted};
ghost use Rattle.notes_rules.specs.Places.{earlier};
ghost use Rattle.notes_runs.specs.Runs.{LineAfter, PastLast, Found, pushed, Kept, Refilled};

// Where the first CR stands.
fn first_cr(rest: &[u8]) -> Option<usize>
    ensures { result ≡ position (λ b. eqb b 13) rest.now }
{
    rest.iter().position(|b| *b == b'\r')
}

// Where the next note starts: two bytes past the first CR from there on, or past the end.
fn line_after(s: &[u8], i: usize) -> usize
    requires { i < length s.now }
    ensures { LineAfter s.now i result }
{
    let rest = &s[i..];
    i + first_cr(rest).unwrap_or(rest.len()) + 2
}

// Whether the last of the first n places comes before x; no where n is 0.
fn past_last(s: &[u8], heads: &[usize], n: usize, x: usize) -> bool
    requires { n ≤ length heads.now }
    ensures { result ≡ true → PastLast s.now heads.now n x }
{
    n != 0 && !notes_compare::is_earlier(s, x, heads[n - 1])
}

// How many of the first n places come before x.
fn place_of(s: &[u8], heads: &[usize], n: usize, x: usize) -> usize
    requires { (n ≤ length heads.now) × Sorted (earlier s.now) (take n heads.now) }
    ensures { Found s.now heads.now n x result }
{
    if past_last(s, heads, n, x) {
        return n;
    }
    heads[..n].partition_point(|head| !notes_compare::is_earlier(s, x, *head))
}

// x put at p, and the others up to m moved on by one.
fn push(heads: &mut [usize], p: usize, m: usize, x: usize)
    requires { m ≤ length heads.old }
    ensures { heads.new ≡ pushed heads.old p m x }
{
    if p < m {
        heads.copy_within(p..m - 1, p + 1);
        heads[p] = x;
    }
}

// One more note looked at; how many places the run then has.
fn keep_one(s: &[u8], last: usize, heads: &mut [usize], n: usize, x: usize) -> usize
    requires { (n ≤ length heads.old) × Sorted (earlier s.now) (take n heads.old) }
    ensures { Kept s.now last heads.old n x heads.new result }
{
    if notes_compare::is_earlier(s, x, last) {
        return n;
    }
    let p = place_of(s, heads, n, x);
    if n < heads.len() {
        push(heads, p, n + 1, x);
        return n + 1;
    }
    push(heads, p, n, x);
    n
}

// The places of the first notes that come after the one at `last`, in order, as many as the list has room for; how many these are.
pub fn refill(s: &[u8], last: usize, heads: &mut [usize]) -> usize
    ensures { Refilled s.now last heads.old heads.new result }
{
    let mut n = 0;
    let mut i = 0;
    // counted by hand: the place jumps from note to note
    while i < s.len() {
        n = keep_one(s, last, heads, n, i);
        i = line_after(s, i);
    }
    n
}
