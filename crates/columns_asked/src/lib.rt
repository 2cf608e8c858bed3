// The codes that are asked for, as a lent text of three bytes each: whether they are codes, and where a layout has their columns.
#![tactic(auto)]

ghost use Rattle.std.specs.Prelude.{◌-◌, ◌*◌, ◌≤◌, ◌≡◌, drop};
ghost use Rattle.rules.specs.Listed.{packed_of};
ghost use Rattle.rules.specs.Refusals.{no};
ghost use Rattle.columns_asked.specs.Asks.{names_from, among, again, are_codes, places_said, PlacesTold, PlacesAsked};

use rules::{Layout, Reason, Refusal, Span};

// Where the columns of up to 13 codes stand: of each its first and its last byte, counted from 1, one code behind the other; 0 past the last, and beside a refusal.
#[derive(Clone, Copy)]
pub struct Places {
    pub outcome: Result<(), Refusal>,
    pub spots: [u8; 26],
}

// The code that stands behind so many bytes, as one number; 0 for a byte past the end.
fn code_at(codes: &[u8], at: usize) -> u32
    requires { at ≤ 39 }
    ensures { result ≡ packed_of (drop at codes.now) }
{
    layout_codes::pack(
        byte_chars::byte(codes, at),
        byte_chars::byte(codes, at + 1),
        byte_chars::byte(codes, at + 2),
    )
}

// Whether one of the n codes from number i on is x, numbers counted from 0.
fn is_among(codes: &[u8], n: usize, i: usize, x: u32) -> bool
    requires { n ≤ 13 }
    ensures { result ≡ among x (names_from (n - i) (drop (i * 3) codes.now)) }
{
    for j in i..n {
        if code_at(codes, j * 3) == x {
            return true;
        }
    }
    false
}

// Whether one of n codes comes again behind its first place.
fn comes_again(codes: &[u8], n: usize) -> bool
    requires { n ≤ 13 }
    ensures { result ≡ again (names_from n codes.now) }
{
    for i in 0..n {
        if is_among(codes, n, i + 1, code_at(codes, i * 3)) {
            return true;
        }
    }
    false
}

// Whether a text is one to 13 codes of three bytes each, none twice.
#[tactic(auto, unfolding(crate::specs::Asks::are_codes))]
fn are_codes(codes: &[u8]) -> bool
    ensures { result ≡ are_codes codes.now }
{
    let n = codes.len();
    1 <= n && n <= 39 && n % 3 == 0 && !comes_again(codes, n / 3)
}

// A refusal, with no places beside it.
fn refused(reason: Reason) -> Places
    ensures { PlacesTold (no reason 0) result }
{
    Places {
        outcome: Err(Refusal {
            reason,
            line: 0,
            byte: 0,
        }),
        spots: [0; 26],
    }
}

// Where the columns of n codes stand; ABSENT where the layout has one of them not.
fn spots_of(layout: Layout, codes: &[u8], n: usize) -> Places
    requires { n ≤ 13 }
    ensures { PlacesTold (places_said layout (names_from n codes.now)) result }
{
    let mut spots: [u8; 26] = [0; 26];
    for i in 0..n {
        let Some(Span { first, last }) = layout_coded::look(layout, code_at(codes, i * 3)) else {
            return refused(Reason::Absent);
        };
        spots[i * 2] = first;
        spots[i * 2 + 1] = last;
    }
    Places {
        outcome: Ok(()),
        spots,
    }
}

// Where a layout has the columns of the codes that are asked for. BAD_VALUE where the text is no one to 13 codes of three bytes each or has a code twice, then ABSENT where the layout has one of them
// not.
pub fn ask(layout: Layout, codes: &[u8]) -> Places
    ensures { PlacesAsked layout codes.now result }
{
    if !are_codes(codes) {
        return refused(Reason::BadValue);
    }
    spots_of(layout, codes, codes.len() / 3)
}
