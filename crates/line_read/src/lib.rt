// The readers of a line, total on every line and every layout: 17 first, then the checks of its kind, with 0 for the line number.
#![tactic(auto)]

ghost use Rattle.std.specs.Prelude.{◌≡◌, drop};
ghost use Rattle.rules.specs.Promises.{EventGiven, SatellitesGiven, DateGiven, HeadGiven, HeadRest, PointGiven, PointRest, FixGiven, ExtraGiven, LayoutGiven};

use line_known::of_kind;
use rules::{
    Date, Extra, ExtraReading, Family, Fix, FixReading, Head, Layout, Point, Reason, Refusal,
};

mod headers;

pub use headers::{HeaderLine, header};

// The time of an E line. BAD_VALUE for another kind; then what `line_check::event` refuses.
pub fn event(line: &[u8]) -> Result<u32, Refusal>
    ensures { EventGiven line.now result }
{
    of_kind(b'E', line)?;
    line_check::event(line)
}

// The time of an F line. BAD_VALUE for another kind; then what `line_check::satellites` refuses.
pub fn satellites(line: &[u8]) -> Result<u32, Refusal>
    ensures { SatellitesGiven line.now result }
{
    of_kind(b'F', line)?;
    line_check::satellites(line)
}

// The date of line 2. BAD_VALUE for another kind; then what `line_check::date_line` refuses.
pub fn date(line: &[u8]) -> Result<Date, Refusal>
    ensures { DateGiven line.now result }
{
    of_kind(b'H', line)?;
    line_check::date_line(line)
}

// The head of a declaration. BAD_VALUE for another kind; then what `line_check::head_line` refuses.
pub fn head(line: &[u8]) -> Result<Head, Refusal>
    ensures { HeadGiven line.now result }
{
    of_kind(b'C', line)?;
    line_check::head_line(line)
}

// What stands behind the first bytes of a line, so many; nothing where it has no more.
fn behind(line: &[u8], bytes: usize) -> &[u8]
    ensures { result.now ≡ drop bytes line.now }
{
    line.get(bytes..).unwrap_or(&[])
}

// The text behind a head's fields, as a part of the line; empty where `head` refuses.
pub fn head_rest(line: &[u8]) -> &[u8]
    ensures { HeadRest line.now result.now }
{
    match head(line) {
        Ok(_) => behind(line, 25),
        Err(_) => &[],
    }
}

// A point of a declaration. BAD_VALUE for another kind; then what `line_check::point_line` refuses.
pub fn point(line: &[u8]) -> Result<Point, Refusal>
    ensures { PointGiven line.now result }
{
    of_kind(b'C', line)?;
    line_check::point_line(line)
}

// The text behind a point's fields, as a part of the line; empty where `point` refuses.
pub fn point_rest(line: &[u8]) -> &[u8]
    ensures { PointRest line.now result.now }
{
    match point(line) {
        Ok(_) => behind(line, 18),
        Err(_) => &[],
    }
}

// A B line read by its I layout, in one check of the line: its fix, and the entries of its columns in layout order. BAD_VALUE for another kind or a layout that is
// not allowed; then what `line_check::fix_line` refuses. A column's text and number are looked up in the entries (`layout_look`).
pub fn fix(line: &[u8], layout: Layout) -> Result<FixReading, Refusal>
    ensures { FixGiven line.now layout result }
{
    if !layout::allowed(Family::B, layout) {
        return Err(Refusal {
            reason: Reason::BadValue,
            line: 0,
            byte: 0,
        });
    }
    line_known::fix(line, layout)
}

// A K line read by its J layout, or an N line by its M layout, as is said, in one check of the line: its time, and the entries of its columns in layout order.
// BAD_VALUE for another kind or a layout that is not allowed; then what `line_check::extra_line` refuses.
pub fn extra(which: Extra, line: &[u8], layout: Layout) -> Result<ExtraReading, Refusal>
    ensures { ExtraGiven which line.now layout result }
{
    if !layout::allowed(Family::Extra(which), layout) {
        return Err(Refusal {
            reason: Reason::BadValue,
            line: 0,
            byte: 0,
        });
    }
    line_known::extra(which, line, layout)
}

// The layout of an I line, for B lines, of a J line, for K lines, or of an M line, for N lines. BAD_VALUE for another kind; then what `layout::layout_line` refuses.
pub fn layout_of(family: Family, line: &[u8]) -> Result<Layout, Refusal>
    ensures { LayoutGiven family line.now result }
{
    if byte_chars::byte(line, 0) != layout_family::layout_letter(family) {
        return Err(Refusal {
            reason: Reason::BadValue,
            line: 0,
            byte: 0,
        });
    }
    layout::layout_line(family, line)
}
