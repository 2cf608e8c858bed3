// What is told of some fixes: their first and their last moment, and the least and the greatest of their heights and positions. What is told of two parts of a flight is joined.
#![tactic(auto)]

ghost use Rattle.std.specs.Prelude.{◌≡◌};
ghost use Rattle.summary_span.specs.Sums.{higher_of, lower_of, joined_span, merged, FigureGiven, NothingTold, SumsJoined};

// A number of a summary.
#[derive(Clone, Copy, Debug, PartialEq, Eq)]
pub struct Figure {
    pub value: i32,
}

// The least and the greatest of some numbers.
#[derive(Clone, Copy, Debug, PartialEq, Eq)]
pub struct Span {
    pub least: Figure,
    pub greatest: Figure,
}

// A day, counted from 0, and its seconds.
#[derive(Clone, Copy, Debug, PartialEq, Eq)]
pub struct Moment {
    pub day: Figure,
    pub seconds: Figure,
}

// What is told of some fixes. Heights are of all of them, latitudes and longitudes of those that are marked A; where no height is told, there is no fix, and the moments are 0.
#[derive(Clone, Copy, Debug, PartialEq, Eq)]
pub struct Sum {
    pub first: Moment,
    pub last: Moment,
    pub heights: Option<Span>,
    pub lats: Option<Span>,
    pub lons: Option<Span>,
}

// A number from 0 to 2,147,483,647 as a figure; 0 for a greater one, which no file has.
pub fn figure_of(n: u64) -> Figure
    ensures { FigureGiven n result }
{
    if n <= 2147483647 {
        Figure { value: n as i32 }
    } else {
        Figure { value: 0 }
    }
}

// The higher of two, the first where they are the same.
fn higher(a: Figure, b: Figure) -> Figure
    ensures { result ≡ higher_of a b }
{
    if a.value < b.value { b } else { a }
}

// The lower of two, the first where they are the same.
fn lower(a: Figure, b: Figure) -> Figure
    ensures { result ≡ lower_of a b }
{
    if b.value < a.value { b } else { a }
}

// The least and the greatest of the numbers of both, where there are any.
fn join_span(a: Option<Span>, b: Option<Span>) -> Option<Span>
    ensures { result ≡ joined_span a b }
{
    let Some(x) = a else {
        return b;
    };
    let Some(y) = b else {
        return a;
    };
    Some(Span {
        least: lower(x.least, y.least),
        greatest: higher(x.greatest, y.greatest),
    })
}

// What is told of the fixes of both, which both have some.
fn merge(a: Sum, b: Sum) -> Sum
    ensures { result ≡ merged a b }
{
    let first = a.first;
    let last = b.last;
    Sum {
        first,
        last,
        heights: join_span(a.heights, b.heights),
        lats: join_span(a.lats, b.lats),
        lons: join_span(a.lons, b.lons),
    }
}

// What is told of the fixes of both, those of the first standing before those of the second.
pub fn join(a: Sum, b: Sum) -> Sum
    ensures { SumsJoined a b result }
{
    if b.heights.is_some() {
        if a.heights.is_some() {
            return merge(a, b);
        }
        return b;
    }
    a
}

// What is told of no fix: nothing, and both moments are 0.
pub fn none() -> Sum
    ensures { NothingTold result }
{
    let zero = Figure { value: 0 };
    let when = Moment {
        day: zero,
        seconds: zero,
    };
    Sum {
        first: when,
        last: when,
        heights: None,
        lats: None,
        lons: None,
    }
}
