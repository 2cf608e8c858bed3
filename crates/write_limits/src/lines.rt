// The values of a line, with the text behind its fields.
ghost use Rattle.std.specs.Prelude.{◌≡◌};
ghost use Rattle.rules.specs.Limits.{good_head_fields, good_fix_fields};
ghost use Rattle.write_limits.specs.Tests.{HeadTest, FixTest, ExtraTest};

use crate::splits::{are_split, fields_of, is_fine};
use crate::tails::good_tail;
use rules::{AtLimit, Extra, Family, Fix, FixFields, Head, Layout};
use write_values::{is_altitude, is_clean, is_date, is_latitude, is_longitude, is_planned};

// Whether the fields of a C head are within their limits.
#[tactic(auto, unfolding(rules::specs::Limits::good_head_fields))]
fn good_head_fields(h: Head) -> bool
    ensures { result ≡ good_head_fields h }
{
    is_date(h.declared)
        && h.time <= 86400
        && is_planned(h.flight)
        && h.task <= 9999
        && h.turns <= 99
}

// Whether some C head line reads as the head, with this text behind it.
#[tactic(auto, unfolding(rules::specs::Limits::good_head))]
pub fn good_head(h: Head, rest: &[u8]) -> bool
    ensures { HeadTest h rest.now result }
{
    good_head_fields(h) && 25 + rest.len() <= 255 && is_clean(rest)
}

// Whether the fields of a B line are within their limits.
#[tactic(auto, unfolding(rules::specs::Limits::good_fix_fields))]
fn good_fix_fields(f: FixFields) -> bool
    ensures { result ≡ good_fix_fields f }
{
    f.time <= 86400
        && is_latitude(f.lat)
        && is_longitude(f.lon)
        && byte_chars::is_either(f.validity, b'A', b'V')
        && is_altitude(f.pressure)
        && is_altitude(f.gnss)
}

// Whether some B line with this layout reads as the fix, with this tail. The decimals are looked at first, so that no power of ten is too great.
#[tactic(auto, unfolding(rules::specs::Limits::good_fix, rules::specs::Choice::on))]
pub fn good_fix(f: Fix, tail: &[u8], l: Layout) -> bool
    ensures { FixTest f tail.now l result }
{
    if !is_fine(f) {
        return false;
    }
    let fields = fields_of(f);
    good_fix_fields(fields)
        && good_tail(Family::B, 36, tail, l, line_fix::at_limit(fields))
        && are_split(f, tail, line_finer::finer_of(l))
}

// Whether some K line with this layout reads as the time, with this tail; and whether some N line does, which is the same.
#[tactic(auto, unfolding(rules::specs::Limits::good_extra))]
pub fn good_extra(t: u32, tail: &[u8], l: Layout) -> bool
    ensures { ExtraTest t tail.now l result }
{
    let no_coordinates = AtLimit {
        lat: false,
        lon: false,
    };
    t <= 86400 && good_tail(Family::Extra(Extra::K), 8, tail, l, no_coordinates)
}
