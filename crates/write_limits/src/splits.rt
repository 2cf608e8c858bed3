// A fix's counts taken apart: the plain counts, which the fields before the columns spell, and their last digits, held against those of the columns.
ghost use Rattle.std.specs.Prelude.{◌≤◌, ◌≡◌};
ghost use Rattle.rules.specs.Fixes.{plain as plain_of, plain_position};
ghost use Rattle.rules.specs.Limits.{is_fine, tail_digits, is_split, are_split};
ghost use Rattle.write_limits.specs.Tests.{FieldsSpelt};

use crate::tails::in_tail;
use rules::{FinePosition, Finer, Fix, FixFields, Position, Reach};

// A count without its extra decimals, however many they are.
fn plain(count: u64, decimals: u8) -> u64
    ensures { result ≡ plain_of count decimals }
{
    let mut x = count;
    for _done in 0..decimals {
        x /= 10;
    }
    x
}

// A position without its extra decimals.
fn plain_position(p: FinePosition) -> Position
    ensures { result ≡ plain_position p }
{
    Position {
        count: plain(p.count, p.decimals),
        letter: p.letter,
    }
}

// What a writer has to spell of a fix.
pub fn fields_of(f: Fix) -> FixFields
    ensures { FieldsSpelt f result }
{
    FixFields {
        time: plain(f.time.count as u64, f.time.decimals) as u32,
        lat: plain_position(f.lat),
        lon: plain_position(f.lon),
        validity: f.validity,
        pressure: f.pressure,
        gnss: f.gnss,
    }
}

// Whether no count has more extra decimals than it may: 3 for the time, 4 for each coordinate.
#[tactic(auto, unfolding(rules::specs::Limits::is_fine))]
pub(crate) fn is_fine(f: Fix) -> bool
    ensures { result ≡ is_fine f }
{
    f.time.decimals <= 3 && f.lat.decimals <= 4 && f.lon.decimals <= 4
}

// The number that a column's digits spell in the tail of a B line; 0 without the column.
fn tail_digits(tail: &[u8], reach: Reach) -> u64
    ensures { result ≡ tail_digits tail.now reach }
{
    let first = in_tail(36, reach.first);
    let last = in_tail(36, reach.last);
    let n = line_finer::decimals_of(reach);
    byte_number::digits(layout_column::text_of(tail, first, last), 0, n as usize).unwrap_or(0)
}

// Whether a count has as many decimals as its column has digits, and ends with them.
fn is_split(count: u64, decimals: u8, tail: &[u8], reach: Reach) -> bool
    requires { decimals ≤ 4 }
    ensures { result ≡ is_split count decimals tail.now reach }
{
    decimals == line_finer::decimals_of(reach)
        && count % byte_tens::power(decimals) == tail_digits(tail, reach)
}

// The same of all three counts.
#[tactic(auto, unfolding(rules::specs::Limits::are_split))]
pub(crate) fn are_split(f: Fix, tail: &[u8], fine: Finer) -> bool
    requires { (f.time.decimals ≤ 4) × (f.lat.decimals ≤ 4) × (f.lon.decimals ≤ 4) }
    ensures { result ≡ are_split f tail.now fine }
{
    is_split(f.time.count as u64, f.time.decimals, tail, fine.time)
        && is_split(f.lat.count, f.lat.decimals, tail, fine.lat)
        && is_split(f.lon.count, f.lon.decimals, tail, fine.lon)
}
