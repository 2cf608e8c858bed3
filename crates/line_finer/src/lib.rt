// The finer digits of a B line: where a layout has the columns TDS, LAD and LOD, and the fix that their digits make of the fields before the columns.
#![tactic(auto)]

ghost use Rattle.std.specs.Prelude.{◌≤◌, ◌≡◌};
ghost use Rattle.rules.specs.Fixes.{decimals_of, digits_at, refined};
ghost use Rattle.line_finer.specs.Within.{reached_by, within, time_within, position_within, FinerGiven, DecimalsGiven, FixMade};

use rules::{Entry, FinePosition, FineTime, Finer, Fix, FixFields, Layout, Position, Reach};

// Where the column of a code stands: that of an entry, where it counts and has the code; else where it stood.
fn reached(was: Reach, counts: bool, e: Entry, code: u32) -> Reach
    ensures { result ≡ reached_by was counts e code }
{
    if counts && e.code == code {
        Reach {
            first: e.first,
            last: e.last,
        }
    } else {
        was
    }
}

// Where a layout for B lines has the columns of finer digits: TDS, LAD and LOD. The entries are gone through once, from the last to the first, so that the first one of a code
// is what is told; each look by itself would copy the layout.
pub fn finer_of(layout: Layout) -> Finer
    ensures { FinerGiven layout result }
{
    let tds = layout_codes::pack(b'T', b'D', b'S');
    let lad = layout_codes::pack(b'L', b'A', b'D');
    let lod = layout_codes::pack(b'L', b'O', b'D');
    let n = layout.count;
    let mut time = Reach { first: 0, last: 0 };
    let mut lat = Reach { first: 0, last: 0 };
    let mut lon = Reach { first: 0, last: 0 };
    for i in (0..13).rev() {
        let e = layout.entries[i];
        time = reached(time, i < n, e, tds);
        lat = reached(lat, i < n, e, lad);
        lon = reached(lon, i < n, e, lod);
    }
    Finer { time, lat, lon }
}

// How many extra decimals a column of finer digits gives: one for each of its bytes, none without the column.
#[tactic(auto, unfolding(rules::specs::Fixes::decimals_of))]
pub fn decimals_of(reach: Reach) -> u8
    ensures { DecimalsGiven reach result }
{
    if reach.first == 0 || reach.last < reach.first {
        return 0;
    }
    reach.last - reach.first + 1
}

// The number that a column of a line spells; 0 without the column, and where it is not digits.
#[tactic(auto, unfolding(rules::specs::Fixes::digits_at))]
fn digits_at(line: &[u8], reach: Reach) -> u64
    ensures { result ≡ digits_at line.now reach }
{
    let n = decimals_of(reach);
    let text = layout_column::text_of(line, reach.first, reach.last);
    byte_number::digits(text, 0, n as usize).unwrap_or(0)
}

// A count times ten for each digit of a column, plus the digits.
fn refined(count: u64, line: &[u8], reach: Reach) -> u64
    requires { (count ≤ 10800000) × (decimals_of reach ≤ 4) }
    ensures { result ≡ refined count line.now reach }
{
    count * byte_tens::power(decimals_of(reach)) + digits_at(line, reach)
}

// The same for a count of `most` at most and a column of at most so many digits; 0 for any other.
#[tactic(auto, unfolding(crate::specs::Within::within))]
fn within(count: u64, most: u64, digits: u8, line: &[u8], reach: Reach) -> u64
    requires { (most ≤ 10800000) × (digits ≤ 4) }
    ensures { result ≡ within most digits count line.now reach }
{
    if most < count || digits < decimals_of(reach) {
        return 0;
    }
    refined(count, line, reach)
}

// A time of a line with the digits of its column.
fn fine_time(time: u32, line: &[u8], reach: Reach) -> FineTime
    ensures { result ≡ time_within time line.now reach }
{
    FineTime {
        count: within(time as u64, 86400, 3, line, reach) as u32,
        decimals: decimals_of(reach),
    }
}

// A latitude or a longitude of a line with the digits of its column.
fn fine_position(p: Position, most: u64, line: &[u8], reach: Reach) -> FinePosition
    requires { most ≤ 10800000 }
    ensures { result ≡ position_within most p line.now reach }
{
    FinePosition {
        count: within(p.count, most, 4, line, reach),
        letter: p.letter,
        decimals: decimals_of(reach),
    }
}

// The fix that a line and its columns of finer digits make of its fields: each count times ten for each digit, plus the digits. A count past its limit, or with a column of more
// digits than 3 for the time and 4 for a coordinate, comes as 0; by an allowed layout no line that is read has one.
pub fn fix_of(line: &[u8], fine: Finer, f: FixFields) -> Fix
    ensures { FixMade line.now fine f result }
{
    Fix {
        time: fine_time(f.time, line, fine.time),
        lat: fine_position(f.lat, 5400000, line, fine.lat),
        lon: fine_position(f.lon, 10800000, line, fine.lon),
        validity: f.validity,
        pressure: f.pressure,
        gnss: f.gnss,
    }
}
