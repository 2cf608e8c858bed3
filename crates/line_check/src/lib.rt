// Each kind of line, without its CR LF, by the checks 7 to 13 in their order: what the line says, or the first refusal, with 0 for the line number.
#![tactic(auto)]

ghost use Rattle.std.specs.Prelude.{◌≡◌, ◌-◌, ◌%◌, eqb, length, drop};
ghost use Rattle.rules.specs.Families.{first_start};
ghost use Rattle.rules.specs.Lines.{at_limit, is_date_mark, planned_at, head_fields, bad_pair, shaped_by};
ghost use Rattle.rules.specs.Layouts.{columns};
ghost use Rattle.rules.specs.Refusals.{and_then, says, result_told};
ghost use Rattle.rules.specs.Promises.{RecorderChecked, DateLineChecked, HeaderChecked, HeadChecked, PointChecked, DifferentialChecked, EventChecked, SatellitesChecked, FixChecked, ExtraChecked, ColumnedChecked};

use line_fix::{fix_fields, form};
use rules::{
    AtLimit, Class, Date, Extra, Family, FixFields, Head, Layout, Point, Position, Reason, Refusal,
};

// An A line: 3 code characters for the maker, 3 for the serial, then text. Refusals: LENGTH, CHARACTER, FORM at 2 or 5.
#[tactic(auto, using(crate::proofs::Laws::outs), unfolding(rules::specs::Lines::a_line, rules::specs::Refusals::result_told))]
pub fn recorder(line: &[u8]) -> Result<(), Refusal>
    ensures { RecorderChecked line.now result }
{
    byte_shape::shaped(line, 7, 255, false)?;
    if !byte_chars::codes_at(line, 1, 3) {
        return Err(form(Class::Other, 2));
    }
    if !byte_chars::codes_at(line, 4, 3) {
        return Err(form(Class::Other, 5));
    }
    Ok(())
}

// An H line other than line 2: F or O, 3 code characters, text. Refusals: LENGTH, CHARACTER, FORM at 2 or 3.
#[tactic(auto, using(crate::proofs::Laws::outs), unfolding(rules::specs::Lines::h_line, rules::specs::Refusals::result_told))]
pub fn header(line: &[u8]) -> Result<(), Refusal>
    ensures { HeaderChecked line.now result }
{
    byte_shape::shaped(line, 5, 255, true)?;
    if !byte_chars::is_either(byte_chars::byte(line, 1), b'F', b'O') {
        return Err(form(Class::Other, 2));
    }
    if !byte_chars::codes_at(line, 2, 3) {
        return Err(form(Class::Other, 3));
    }
    Ok(())
}

// A D line: 1 or 2, then 4 code characters. Refusals: LENGTH, CHARACTER, FORM at 2 or 3.
#[tactic(auto, using(crate::proofs::Laws::outs), unfolding(rules::specs::Lines::d_line, rules::specs::Refusals::result_told))]
pub fn differential(line: &[u8]) -> Result<(), Refusal>
    ensures { DifferentialChecked line.now result }
{
    byte_shape::shaped(line, 6, 6, false)?;
    if !byte_chars::is_either(byte_chars::byte(line, 1), b'1', b'2') {
        return Err(form(Class::Other, 2));
    }
    if !byte_chars::codes_at(line, 2, 4) {
        return Err(form(Class::Other, 3));
    }
    Ok(())
}

// An E line: its time, 3 code characters, text. Refusals: LENGTH, CHARACTER, TIME at 2, FORM at 8.
#[tactic(auto, using(crate::proofs::Laws::outs), unfolding(rules::specs::Lines::e_line, rules::specs::Refusals::result_told))]
pub fn event(line: &[u8]) -> Result<u32, Refusal>
    ensures { EventChecked line.now result }
{
    byte_shape::shaped(line, 10, 255, false)?;
    let Some(t) = field_time::time_at(line, 1) else {
        return Err(form(Class::Time, 2));
    };
    if !byte_chars::codes_at(line, 7, 3) {
        return Err(form(Class::Other, 8));
    }
    Ok(t)
}

// Whether FDTE stands at 2 to 5.
#[tactic(auto, unfolding(rules::specs::Lines::is_date_mark))]
fn is_date_mark(line: &[u8]) -> bool
    ensures { result ≡ is_date_mark line.now }
{
    byte_chars::byte(line, 1) == b'F'
        && byte_chars::byte(line, 2) == b'D'
        && byte_chars::byte(line, 3) == b'T'
        && byte_chars::byte(line, 4) == b'E'
}

// Line 2, FDTE and its date. Refusals: LENGTH, CHARACTER, FORM at 2, DATE at 6.
#[tactic(auto, using(crate::proofs::Laws::outs), unfolding(rules::specs::Lines::date_line, rules::specs::Refusals::result_told))]
pub fn date_line(line: &[u8]) -> Result<Date, Refusal>
    ensures { DateLineChecked line.now result }
{
    byte_shape::shaped(line, 11, 11, true)?;
    if !is_date_mark(line) {
        return Err(form(Class::Other, 2));
    }
    let Some(d) = field_time::date_at(line, 5) else {
        return Err(form(Class::Date, 6));
    };
    Ok(d)
}

// DDMMYY at a place of a line, or 000000 for a date that is not given.
#[tactic(auto, using(crate::proofs::Laws::plans), unfolding(rules::specs::Lines::planned_at))]
fn planned_at(line: &[u8], at: usize) -> Option<Option<Date>>
    ensures { result ≡ planned_at line.now at }
{
    let Some(v) = byte_number::digits(line, at, 6) else {
        return None;
    };
    if v == 0 {
        return Some(None);
    }
    let Some(d) = field_time::date_at(line, at) else {
        return None;
    };
    Some(Some(d))
}

// The fields of a C head.
#[tactic(auto, using(crate::proofs::Laws::outs), unfolding(rules::specs::Lines::head_fields, rules::specs::Refusals::result_told))]
fn head_fields(line: &[u8]) -> Result<Head, Refusal>
    ensures { result_told result ≡ head_fields line.now }
{
    let Some(declared) = field_time::date_at(line, 1) else {
        return Err(form(Class::Date, 2));
    };
    let Some(time) = field_time::time_at(line, 7) else {
        return Err(form(Class::Time, 8));
    };
    let Some(flight) = planned_at(line, 13) else {
        return Err(form(Class::Date, 14));
    };
    let Some(task) = byte_number::digits(line, 19, 4) else {
        return Err(form(Class::Other, 20));
    };
    let Some(turns) = byte_number::digits(line, 23, 2) else {
        return Err(form(Class::Other, 24));
    };
    Ok(Head {
        declared,
        time,
        flight,
        task: task as u16,
        turns: turns as u8,
    })
}

// A C head: declared date, time, flight date, task number, number of turn points, text. Refusals: LENGTH, CHARACTER, DATE at 2 or 14, TIME at 8, FORM at 20 or 24.
#[tactic(auto, using(crate::proofs::Laws::outs), unfolding(rules::specs::Lines::head_line, rules::specs::Refusals::result_told))]
pub fn head_line(line: &[u8]) -> Result<Head, Refusal>
    ensures { HeadChecked line.now result }
{
    byte_shape::shaped(line, 25, 255, false)?;
    head_fields(line)
}

// A C point: latitude, longitude, text. Refusals: LENGTH, CHARACTER, POSITION at 2 or 10.
#[tactic(auto, using(crate::proofs::Laws::outs), unfolding(rules::specs::Lines::point_line, rules::specs::Refusals::result_told))]
pub fn point_line(line: &[u8]) -> Result<Point, Refusal>
    ensures { PointChecked line.now result }
{
    byte_shape::shaped(line, 18, 255, false)?;
    let Some(lat) = field_time::latitude_at(line, 1) else {
        return Err(form(Class::Position, 2));
    };
    let Some(lon) = field_time::longitude_at(line, 9) else {
        return Err(form(Class::Position, 10));
    };
    Ok(Point { lat, lon })
}

// Whether the bytes behind the time of an F line make whole pairs.
fn is_paired(line: &[u8]) -> bool
    ensures { result ≡ eqb ((length line.now - 7) % 2) 0 }
{
    line.len() < 7 || (line.len() - 7) % 2 == 0
}

// How many bytes stand before the first pair of an F line that is not two code characters.
fn bad_pair(line: &[u8]) -> Option<usize>
    ensures { result ≡ bad_pair 7 (drop 7 line.now) }
{
    // Counted by hand: the place goes on by two, and both bytes of a pair are read by it.
    let mut i = 7;
    while i < line.len() {
        let j = i + 1;
        if line.len() <= j {
            return None;
        }
        if !byte_chars::is_code(line[i]) {
            return Some(i);
        }
        if !byte_chars::is_code(line[j]) {
            return Some(i);
        }
        i += 2;
    }
    None
}

// An F line: its time, then pairs of code characters, perhaps none. Refusals: LENGTH, CHARACTER, TIME at 2, FORM at 8 for an odd half pair or at a pair.
#[tactic(auto, using(crate::proofs::Laws::outs), unfolding(rules::specs::Lines::f_line, rules::specs::Refusals::result_told))]
pub fn satellites(line: &[u8]) -> Result<u32, Refusal>
    ensures { SatellitesChecked line.now result }
{
    byte_shape::shaped(line, 7, 255, false)?;
    let Some(t) = field_time::time_at(line, 1) else {
        return Err(form(Class::Time, 2));
    };
    if !is_paired(line) {
        return Err(form(Class::Other, 8));
    }
    if let Some(i) = bad_pair(line) {
        return Err(form(Class::Other, (i + 1) as u32));
    }
    Ok(t)
}

// The length that a layout gives, then the characters.
fn shaped_by(family: Family, layout: Layout, line: &[u8]) -> Result<(), Refusal>
    ensures { result_told result ≡ shaped_by (first_start family) layout line.now }
{
    let n = layout::line_length(family, layout);
    byte_shape::shaped(line, n, n, false)
}

// The fields of a fix whose line's columns keep their rules.
#[tactic(auto, using(crate::proofs::Laws::columned), unfolding(rules::specs::Refusals::result_told))]
fn with_columns(f: FixFields, line: &[u8], layout: Layout) -> Result<FixFields, Refusal>
    ensures { result_told result ≡ and_then (columns (at_limit f) line.now layout) (λ _. says f) }
{
    layout_column::columns(line, layout, line_fix::at_limit(f))?;
    Ok(f)
}

// A B line by an I layout: the fields of its fix. Refusals: LENGTH, CHARACTER, TIME at 2, POSITION at 8 or 16, FORM at 25, ALTITUDE at 26 or 31, COLUMN. Defined for
// every layout value.
#[tactic(auto, using(crate::proofs::Laws::outs), unfolding(rules::specs::Lines::b_line, rules::specs::Refusals::result_told))]
pub fn fix_line(line: &[u8], layout: Layout) -> Result<FixFields, Refusal>
    ensures { FixChecked line.now layout result }
{
    shaped_by(Family::B, layout, line)?;
    let f = fix_fields(line)?;
    with_columns(f, line, layout)
}

// A K line by a J layout, or an N line by an M layout: its time. Refusals: LENGTH, CHARACTER, TIME at 2, COLUMN. Defined for every layout value.
#[tactic(auto, using(crate::proofs::Laws::outs), unfolding(rules::specs::Lines::extra_line, rules::specs::Refusals::result_told))]
pub fn extra_line(line: &[u8], layout: Layout) -> Result<u32, Refusal>
    ensures { ExtraChecked line.now layout result }
{
    shaped_by(Family::Extra(Extra::K), layout, line)?;
    let Some(t) = field_time::time_at(line, 1) else {
        return Err(form(Class::Time, 2));
    };
    let none = AtLimit {
        lat: false,
        lon: false,
    };
    layout_column::columns(line, layout, none)?;
    Ok(t)
}

// A line of a family by its layout: its time. Refusals: those of its kind. Defined for every layout value.
#[tactic(auto, using(crate::proofs::Laws::outs), unfolding(rules::specs::Lines::columned_line, rules::specs::Refusals::result_told))]
pub fn columned_line(family: Family, line: &[u8], layout: Layout) -> Result<u32, Refusal>
    ensures { ColumnedChecked family line.now layout result }
{
    match family {
        Family::B => {
            let f = fix_line(line, layout)?;
            Ok(f.time)
        }
        Family::Extra(_) => extra_line(line, layout),
    }
}
