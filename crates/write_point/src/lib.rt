// C point lines: written into a lent output from a place on.
#![tactic(auto)]

ghost use Rattle.std.specs.Prelude.{◌++◌};
ghost use Rattle.rules.specs.Writes.{point_text, crlf};
ghost use Rattle.rules.specs.Promises.{PointWritten};
ghost use Rattle.byte_put.specs.Puts.{Fills};

use rules::{Point, Reason, Refusal};
use write_ending::{close, refused};

// A point's line and its CR LF, at the front of an output.
fn fill_point(p: Point, rest: &[u8], out: &mut [u8])
    ensures { Fills out.old 0 (point_text p rest.now ++ crlf) out.new }
{
    byte_put::byte(out, 0, b'C');
    write_fields::latitude(out, 1, p.lat);
    write_fields::longitude(out, 9, p.lon);
    close(out, 18, rest);
}

// A C point line with the text behind its fields, into an output from a place on; the place after its CR LF. BadValue where no line reads as the point
// with that text, NoRoom where the output is too short.
pub fn point(p: Point, rest: &[u8], out: &mut [u8], place: usize) -> Result<usize, Refusal>
    ensures { PointWritten p rest.now place out.old result out.new }
{
    if !write_values::good_point(p, rest) {
        return refused(Reason::BadValue);
    }
    let n = 20 + rest.len();
    if out.len() < place || out.len() - place < n {
        return refused(Reason::NoRoom);
    }
    fill_point(p, rest, &mut out[place..]);
    Ok(place + n)
}
