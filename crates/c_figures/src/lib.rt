// What the check says of a file, in numbers.
#![tactic(auto)]

ghost use Rattle.std.specs.Prelude.{◌≡◌};
ghost use Rattle.c_answers.specs.Answers.{accepting};
ghost use Rattle.c_figures.specs.Figures.{one_if, flight_numbers, FileNumbered};

use c_answers::{Numbers, accepted, refused};
use rules::{Checked, Extra, Family, Flight, Refusal};

// Yes or no as a number.
fn one_if(b: bool) -> u64
    ensures { result ≡ one_if b }
{
    u64::from(b)
}

// What an accepted file says.
fn flight(f: Flight) -> Numbers
    ensures { result ≡ accepting (flight_numbers f) }
{
    let b = layout::line_length(Family::B, f.layouts.b) as u64;
    let k = layout::line_length(Family::Extra(Extra::K), f.layouts.k) as u64;
    let n = layout::line_length(Family::Extra(Extra::N), f.layouts.n) as u64;
    let signed = one_if(f.signed);
    accepted(&[
        f.date.day as u64,
        f.date.month as u64,
        f.date.year as u64,
        f.lines as u64,
        f.counts.b as u64,
        f.counts.k as u64,
        b,
        k,
        f.counts.n as u64,
        n,
        signed,
    ])
}

// What the check says of a file, in numbers: those of an accepted file, or the refusal's number, line and byte.
pub fn numbers(c: Checked) -> Numbers
    ensures { FileNumbered c result }
{
    let outcome = c.outcome;
    let f = c.flight;
    match outcome {
        Ok(()) => flight(f),
        Err(why) => refused(why),
    }
}
