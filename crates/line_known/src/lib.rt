// The readers of a line of a family by a layout that is known to be allowed: the layout is not tested. On one that is not allowed they are total too, but say nothing of the paper.
#![tactic(auto)]

ghost use Rattle.rules.specs.Refusals.{result_told};
ghost use Rattle.std.specs.Prelude.{◌≡◌};
ghost use Rattle.line_known.specs.Known.{fields_known, extra_known, OfKind, FixKnown, ExtraKnown};

use rules::{Extra, ExtraReading, Family, Fix, FixFields, FixReading, Layout, Reason, Refusal};

// Nothing of a line that begins with this letter. BAD_VALUE for another kind.
pub fn of_kind(letter: u8, line: &[u8]) -> Result<(), Refusal>
    ensures { OfKind letter line.now result }
{
    if byte_chars::byte(line, 0) != letter {
        return Err(Refusal {
            reason: Reason::BadValue,
            line: 0,
            byte: 0,
        });
    }
    Ok(())
}

// The fields of a B line. BAD_VALUE for another kind; then what `line_check::fix_line` refuses.
fn fields(line: &[u8], layout: Layout) -> Result<FixFields, Refusal>
    ensures { result_told result ≡ fields_known line.now layout }
{
    of_kind(b'B', line)?;
    line_check::fix_line(line, layout)
}

// The fix of a B line and the entries of its columns, in one check of the line. BAD_VALUE for another kind; then what `line_check::fix_line` refuses.
pub fn fix(line: &[u8], layout: Layout) -> Result<FixReading, Refusal>
    ensures { FixKnown line.now layout result }
{
    let f = fields(line, layout)?;
    Ok(FixReading {
        fix: line_finer::fix_of(line, line_finer::finer_of(layout), f),
        entries: layout,
    })
}

// The time of a K or an N line, as is said. BAD_VALUE for another kind; then what `line_check::extra_line` refuses.
fn timed(which: Extra, line: &[u8], layout: Layout) -> Result<u32, Refusal>
    ensures { result_told result ≡ extra_known which line.now layout }
{
    of_kind(layout_family::line_letter(Family::Extra(which)), line)?;
    line_check::extra_line(line, layout)
}

// The time of a K or an N line, as is said, and the entries of its columns, in one check of the line. What `timed` refuses.
pub fn extra(which: Extra, line: &[u8], layout: Layout) -> Result<ExtraReading, Refusal>
    ensures { ExtraKnown which line.now layout result }
{
    let time = timed(which, line, layout)?;
    Ok(ExtraReading {
        time,
        entries: layout,
    })
}
