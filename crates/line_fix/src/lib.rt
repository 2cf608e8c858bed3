// The fields of a B line before its columns, and how a field that breaks its rule is refused.
#![tactic(auto)]

ghost use Rattle.std.specs.Prelude.{◌≡◌};
ghost use Rattle.rules.specs.Refusals.{reason_of};
ghost use Rattle.line_fix.specs.Parts.{FormGiven, FieldsGiven, LimitsGiven};

use rules::{AtLimit, Class, FixFields, Height, Position, Reason, Refusal};

// Why a field of this class that breaks its rule is refused.
fn reason_of(class: Class) -> Reason
    ensures { result ≡ reason_of class }
{
    match class {
        Class::Time => Reason::Time,
        Class::Position => Reason::Position,
        Class::Altitude => Reason::Altitude,
        Class::Date => Reason::Date,
        Class::Other => Reason::Form,
    }
}

// A field of this class that breaks its rule, refused at its first byte.
pub fn form(class: Class, byte: u32) -> Refusal
    ensures { FormGiven class byte result }
{
    Refusal {
        reason: reason_of(class),
        line: 0,
        byte,
    }
}

// The fields of a B line before its columns.
#[tactic(auto, using(crate::proofs::Laws::fixes), unfolding(rules::specs::Lines::fix_fields, rules::specs::Refusals::result_told))]
pub fn fix_fields(line: &[u8]) -> Result<FixFields, Refusal>
    ensures { FieldsGiven line.now result }
{
    let Some(time) = field_time::time_at(line, 1) else {
        return Err(form(Class::Time, 2));
    };
    let Some(lat) = field_time::latitude_at(line, 7) else {
        return Err(form(Class::Position, 8));
    };
    let Some(lon) = field_time::longitude_at(line, 15) else {
        return Err(form(Class::Position, 16));
    };
    let validity = byte_chars::byte(line, 24);
    if !byte_chars::is_either(validity, b'A', b'V') {
        return Err(form(Class::Other, 25));
    }
    let Some(pressure) = field_time::altitude_at(line, 25) else {
        return Err(form(Class::Altitude, 26));
    };
    let Some(gnss) = field_time::altitude_at(line, 30) else {
        return Err(form(Class::Altitude, 31));
    };
    Ok(FixFields {
        time,
        lat,
        lon,
        validity,
        pressure,
        gnss,
    })
}

// Which coordinates of a fix stand at their limit: a latitude of 90 degrees, a longitude of 180.
#[tactic(auto, unfolding(rules::specs::Lines::at_limit))]
pub fn at_limit(f: FixFields) -> AtLimit
    ensures { LimitsGiven f result }
{
    let lat = f.lat;
    let lon = f.lon;
    AtLimit {
        lat: lat.count == 5400000,
        lon: lon.count == 10800000,
    }
}
