// What a line that has no layout says, in the numbers of an answer.
ghost use Rattle.rules.specs.Refusals.{result_told};
ghost use Rattle.std.specs.Prelude.{◌≡◌};
ghost use Rattle.c_answers.specs.Answers.{accepting, in_numbers};
ghost use Rattle.c_lines.specs.Values.{date_numbers, planned_date, head_numbers, point_numbers};

use c_answers::{Numbers, accepted, refused};
use rules::{Date, Head, Point, Refusal};

// A date.
pub(crate) fn date(read: Result<Date, Refusal>) -> Numbers
    ensures { result ≡ in_numbers date_numbers (result_told read) }
{
    match read {
        Ok(d) => accepted(&[d.day as u64, d.month as u64, d.year as u64]),
        Err(why) => refused(why),
    }
}

// The flight date of a declaration's head; zeros where it is not given.
pub fn planned_date(p: Option<Date>) -> Date
    ensures { result ≡ planned_date p }
{
    p.unwrap_or(Date {
        day: 0,
        month: 0,
        year: 0,
    })
}

// The head of a declaration.
fn head_values(h: Head) -> Numbers
    ensures { result ≡ accepting (head_numbers h) }
{
    let d = h.declared;
    let f = planned_date(h.flight);
    accepted(&[
        d.day as u64,
        d.month as u64,
        d.year as u64,
        h.time as u64,
        f.day as u64,
        f.month as u64,
        f.year as u64,
        h.task as u64,
        h.turns as u64,
    ])
}

pub(crate) fn head(read: Result<Head, Refusal>) -> Numbers
    ensures { result ≡ in_numbers head_numbers (result_told read) }
{
    match read {
        Ok(h) => head_values(h),
        Err(why) => refused(why),
    }
}

// A point of a declaration.
fn point_values(p: Point) -> Numbers
    ensures { result ≡ accepting (point_numbers p) }
{
    let lat = p.lat;
    let lon = p.lon;
    accepted(&[
        0,
        0,
        lat.count,
        lat.letter as u64,
        0,
        lon.count,
        lon.letter as u64,
    ])
}

pub(crate) fn point(read: Result<Point, Refusal>) -> Numbers
    ensures { result ≡ in_numbers point_numbers (result_told read) }
{
    match read {
        Ok(p) => point_values(p),
        Err(why) => refused(why),
    }
}
