// B lines.
ghost use Rattle.std.specs.Prelude.{◌++◌};
ghost use Rattle.rules.specs.Writes.{fields_text, crlf};
ghost use Rattle.rules.specs.Promises.{FixWritten};
ghost use Rattle.byte_put.specs.Puts.{Fills};
ghost use Rattle.write_line.specs.Parts.{heights_text, place_text};

use rules::{Fix, FixFields, Layout, Reason, Refusal};
use write_ending::{close, refused};

// A fix's two altitudes, and the columns.
fn fill_heights(f: FixFields, tail: &[u8], out: &mut [u8])
    ensures { Fills out.old 25 (heights_text f tail.now ++ crlf) out.new }
{
    write_fields::altitude(out, 25, f.pressure);
    write_fields::altitude(out, 30, f.gnss);
    close(out, 35, tail);
}

// What stands behind a fix's time.
fn fill_place(f: FixFields, tail: &[u8], out: &mut [u8])
    ensures { Fills out.old 7 (place_text f tail.now ++ crlf) out.new }
{
    write_fields::latitude(out, 7, f.lat);
    write_fields::longitude(out, 15, f.lon);
    byte_put::byte(out, 24, f.validity);
    fill_heights(f, tail, out);
}

// A fix's line and its CR LF, at the front of an output.
fn fill_fix(f: FixFields, tail: &[u8], out: &mut [u8])
    ensures { Fills out.old 0 (fields_text f tail.now ++ crlf) out.new }
{
    byte_put::byte(out, 0, b'B');
    write_fields::time(out, 1, f.time);
    fill_place(f, tail, out);
}

// A B line of a fix and its columns, the line's whole tail, into an output from a place on; the place after its CR LF. BadValue where no line with this
// layout reads as the fix with that tail, NoRoom where the output is too short.
pub fn fix(f: Fix, tail: &[u8], l: Layout, out: &mut [u8], place: usize) -> Result<usize, Refusal>
    ensures { FixWritten f tail.now l place out.old result out.new }
{
    if !write_limits::good_fix(f, tail, l) {
        return refused(Reason::BadValue);
    }
    let n = 37 + tail.len();
    if out.len() < place || out.len() - place < n {
        return refused(Reason::NoRoom);
    }
    fill_fix(write_limits::fields_of(f), tail, &mut out[place..]);
    Ok(place + n)
}
