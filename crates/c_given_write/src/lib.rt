// A line written by a layout that is given as the text of its own line.
#![tactic(auto)]

ghost use Rattle.c_given_write.specs.Written.{FixWrittenBy, ExtraWrittenBy, LayoutWrittenBy};

use rules::{Extra, Family, Fix, Reason, Refusal};

// A B line by the layout of an I line.
pub fn fix(
    f: Fix,
    columns: &[u8],
    layout: &[u8],
    out: &mut [u8],
    place: usize,
) -> Result<usize, Refusal>
    ensures { FixWrittenBy f columns.now layout.now place out.old result out.new }
{
    let given = c_given::layout(Family::B, layout)?;
    write_line::fix(f, columns, given, out, place)
}

// A K line by the layout of a J line, or an N line by that of an M line, as is said.
pub fn extra(
    which: Extra,
    seconds: u32,
    columns: &[u8],
    layout: &[u8],
    out: &mut [u8],
    place: usize,
) -> Result<usize, Refusal>
    ensures { ExtraWrittenBy which seconds columns.now layout.now place out.old result out.new }
{
    let given = c_given::layout(Family::Extra(which), layout)?;
    write_line::extra(which, seconds, columns, given, out, place)
}

// The line of a layout, for whichever family, from its text.
pub fn layout(line: &[u8], out: &mut [u8], place: usize) -> Result<usize, Refusal>
    ensures { LayoutWrittenBy line.now place out.old result out.new }
{
    let Some(f) = layout_family::layout_family(line) else {
        return Err(Refusal {
            reason: Reason::BadValue,
            line: 0,
            byte: 0,
        });
    };
    let Ok(told) = line_read::layout_of(f, line) else {
        return Err(Refusal {
            reason: Reason::BadValue,
            line: 0,
            byte: 0,
        });
    };
    write_line::layout(f, told, out, place)
}
