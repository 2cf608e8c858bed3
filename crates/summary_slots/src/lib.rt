// The twelve numbers that are told of some fixes, put into a lent list at a place of it. They have room there as a whole, or nothing changes.
#![tactic(auto)]

ghost use Rattle.std.specs.Prelude.{◌+◌, ◌≤◌, ◌∷◌, [], ◌≡◌, length};
ghost use Rattle.std.proofs.lemmas.List.Edits.{sets};
ghost use Rattle.summary_span.specs.Sums.{span_or_zero};
ghost use Rattle.summary_slots.specs.Slots.{flag_of, numbers_of, SumPut};

use summary_span::{Figure, Span, Sum};

// 1 or 0.
fn flag(t: bool) -> Figure
    ensures { result ≡ flag_of t }
{
    if t {
        Figure { value: 1 }
    } else {
        Figure { value: 0 }
    }
}

// The numbers of a span; 0 where there is none.
fn known(span: Option<Span>) -> Span
    ensures { result ≡ span_or_zero span }
{
    let zero = Figure { value: 0 };
    span.unwrap_or(Span {
        least: zero,
        greatest: zero,
    })
}

// Four numbers from a place on.
fn put_four(list: &mut [i32], at: usize, a: Figure, b: Figure, c: Figure, d: Figure)
    requires { at + 4 ≤ length list.old }
    ensures { list.new ≡ sets list.old at (a.value ∷ b.value ∷ c.value ∷ d.value ∷ []) }
{
    let v = a.value;
    let w = b.value;
    let x = c.value;
    let y = d.value;
    list[at] = v;
    list[at + 1] = w;
    list[at + 2] = x;
    list[at + 3] = y;
}

// The twelve numbers of n fixes from a place on, where they have room.
fn put_twelve(list: &mut [i32], at: usize, n: usize, s: Sum)
    requires { at + 12 ≤ length list.old }
    ensures { list.new ≡ sets list.old at (numbers_of n s) }
{
    let first = s.first;
    let last = s.last;
    put_four(
        list,
        at,
        summary_span::figure_of(n as u64),
        first.day,
        first.seconds,
        last.day,
    );
    let heights = known(s.heights);
    put_four(
        list,
        at + 4,
        last.seconds,
        heights.greatest,
        heights.least,
        flag(s.lats.is_some()),
    );
    let lats = known(s.lats);
    let lons = known(s.lons);
    put_four(
        list,
        at + 4 + 4,
        lats.least,
        lats.greatest,
        lons.least,
        lons.greatest,
    );
}

// The twelve numbers that are told of n fixes, from a place of the list on: the number of fixes, day and seconds of the first and of the last, the highest and the lowest, 1 or 0
// for a position, the least and the greatest latitude and longitude. Nothing changes where fewer than twelve places are left.
pub fn put_sum(list: &mut [i32], at: usize, n: usize, s: Sum)
    ensures { SumPut at n s list.old list.new }
{
    if 12 <= list.len() && at <= list.len() - 12 {
        put_twelve(list, at, n, s);
    }
}
