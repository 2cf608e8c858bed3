// K and N lines.
ghost use Rattle.std.specs.Prelude.{◌++◌};
ghost use Rattle.rules.specs.Writes.{extra_text, crlf};
ghost use Rattle.rules.specs.Promises.{ExtraWritten};
ghost use Rattle.byte_put.specs.Puts.{Fills};

use rules::{Extra, Family, Layout, Reason, Refusal};
use write_ending::{close, refused};

// A K or an N line and its CR LF, at the front of an output.
fn fill_extra(which: Extra, t: u32, tail: &[u8], out: &mut [u8])
    ensures { Fills out.old 0 (extra_text which t tail.now ++ crlf) out.new }
{
    byte_put::byte(out, 0, layout_family::line_letter(Family::Extra(which)));
    write_fields::time(out, 1, t);
    close(out, 7, tail);
}

// A K or an N line of a time and its columns, the line's whole tail, into an output from a place on; the place after its CR LF. BadValue where no such line
// with this layout reads as the time with that tail, NoRoom where the output is too short.
pub fn extra(
    which: Extra,
    t: u32,
    tail: &[u8],
    l: Layout,
    out: &mut [u8],
    place: usize,
) -> Result<usize, Refusal>
    ensures { ExtraWritten which t tail.now l place out.old result out.new }
{
    if !write_limits::good_extra(t, tail, l) {
        return refused(Reason::BadValue);
    }
    let n = 9 + tail.len();
    if out.len() < place || out.len() - place < n {
        return refused(Reason::NoRoom);
    }
    fill_extra(which, t, tail, &mut out[place..]);
    Ok(place + n)
}
