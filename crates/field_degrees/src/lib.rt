// A position for the map: its latitude and its longitude in degrees.
#![tactic(auto)]

ghost use Rattle.std.specs.Prelude.{◌≤◌, ◌≡◌};
ghost use Rattle.rules.specs.Degrees.{quotient, angle as angle_of, is_fine_position};
ghost use Rattle.rules.specs.Refusals.{no, result_told};
ghost use Rattle.rules.specs.Promises.{DegreesGiven};
ghost use Rattle.field_degrees.specs.Signs.{NegatedTest};

use rules::{Degrees, FinePosition, Reason, Refusal};

// The count over 60,000 times the power of ten of its decimals, rounded once: an f64 holds both numbers exactly.
fn over(count: u64, decimals: u8) -> f64
    requires { (count ≤ 108000000000) × (decimals ≤ 4) }
    ensures { result ≡ quotient count decimals }
{
    let power = byte_tens::power(decimals);
    (count as f64) / ((60000 * power) as f64)
}

// Whether a position lies below zero: under S or W, and not at count 0.
#[tactic(auto, unfolding(rules::specs::Degrees::is_negated))]
pub fn is_negated(p: FinePosition) -> bool
    ensures { NegatedTest p result }
{
    p.count != 0 && byte_chars::is_either(p.letter, b'S', b'W')
}

// The degrees of a position: plain zero for count 0 under either letter.
#[tactic(auto, unfolding(rules::specs::Degrees::angle))]
fn angle(p: FinePosition) -> f64
    requires { (p.count ≤ 108000000000) × (p.decimals ≤ 4) }
    ensures { result ≡ angle_of p }
{
    let q = over(p.count, p.decimals);
    if is_negated(p) { -q } else { q }
}

// Whether the decimals are 4 at most, the count `most` times their power of ten at most, and the letter one of two.
#[tactic(auto, using(crate::proofs::Laws::limit_fits, crate::proofs::Laws::past_limit, crate::proofs::Laws::in_limit), unfolding(rules::specs::Degrees::is_fine_position))]
fn is_position(p: FinePosition, most: u64, a: u8, b: u8) -> bool
    requires { most ≤ 10800000 }
    ensures { result ≡ is_fine_position most a b p }
{
    p.decimals <= 4
        && p.count <= most * byte_tens::power(p.decimals)
        && byte_chars::is_either(p.letter, a, b)
}

// The refusal of a value that is not allowed: 17.
#[tactic(auto, unfolding(rules::specs::Refusals::result_told))]
fn bad_value() -> Result<Degrees, Refusal>
    ensures { result_told result ≡ no Reason.BadValue 0 }
{
    Err(Refusal {
        reason: Reason::BadValue,
        line: 0,
        byte: 0,
    })
}

// A latitude and a longitude as degrees, each the f64 nearest to the exact quotient. BadValue (17) for more than 4 decimals, and for a count or a letter that is not allowed.
#[tactic(auto, using(rules::proofs::Links::tests, crate::proofs::Laws::count_within, crate::proofs::Laws::few_within, crate::proofs::Laws::pair_is), unfolding(rules::specs::Degrees::degrees_of, rules::specs::Refusals::result_told))]
pub fn degrees(lat: FinePosition, lon: FinePosition) -> Result<Degrees, Refusal>
    ensures { DegreesGiven lat lon result }
{
    if !is_position(lat, 5400000, b'N', b'S') {
        return bad_value();
    }
    if !is_position(lon, 10800000, b'E', b'W') {
        return bad_value();
    }
    let a = angle(lat);
    let b = angle(lon);
    Ok(Degrees { lat: a, lon: b })
}
