// What is told of one fix of a track: by the plain counts of its time and its position.
#![tactic(auto)]

ghost use Rattle.std.specs.Prelude.{◌≤◌, ◌≡◌, pos, neg_ℤ};
ghost use Rattle.summary_fix.specs.Spots.{taken_time, taken_position, signed_figure, height_figure, span_if, FixAlone};

use rules::{FinePosition, FineTime, Height, Position};
use summary_span::{Figure, Moment, Span, Sum};
use track_rules::Record;

// The plain seconds of a time: its count without the extra digits.
fn plain_time(t: FineTime) -> u32
    ensures { result ≡ taken_time t }
{
    t.count / byte_tens::power(t.decimals) as u32
}

// The plain position of a finer one.
fn plain_position(p: FinePosition) -> Position
    ensures { result ≡ taken_position p }
{
    Position {
        count: p.count / byte_tens::power(p.decimals),
        letter: p.letter,
    }
}

// A count below zero.
fn negative(n: u64) -> Figure
    requires { n ≤ 2147483647 }
    ensures { result ≡ record { value = neg_ℤ (pos n) } }
{
    Figure { value: -(n as i32) }
}

// A position as a signed count, south and west negative; 0 for a count over 2,147,483,647, which no file has.
fn signed(p: Position) -> Figure
    ensures { result ≡ signed_figure p }
{
    let n = p.count;
    if n <= 2147483647 && byte_chars::is_either(p.letter, b'S', b'W') {
        negative(n)
    } else {
        summary_span::figure_of(n)
    }
}

// An altitude.
fn height_of(h: Height) -> Figure
    ensures { result ≡ height_figure h }
{
    Figure { value: h.metres }
}

// The span of one number, or of none.
fn span_if(any: bool, z: Figure) -> Option<Span>
    ensures { result ≡ span_if any z }
{
    any.then_some(Span {
        least: z,
        greatest: z,
    })
}

// What is told of one fix: its day and its plain seconds as the first and the last moment, its pressure altitude, and its position where it is marked A.
pub fn alone(r: Record) -> Sum
    ensures { FixAlone r result }
{
    let fix = r.fix;
    let when = Moment {
        day: summary_span::figure_of(r.day as u64),
        seconds: summary_span::figure_of(plain_time(fix.time) as u64),
    };
    let marked = fix.validity == b'A';
    Sum {
        first: when,
        last: when,
        heights: span_if(true, height_of(fix.pressure)),
        lats: span_if(marked, signed(plain_position(fix.lat))),
        lons: span_if(marked, signed(plain_position(fix.lon))),
    }
}
