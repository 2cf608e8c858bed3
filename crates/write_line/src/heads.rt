// C head lines.
ghost use Rattle.std.specs.Prelude.{◌++◌, ◌≡◌};
ghost use Rattle.rules.specs.Writes.{head_text, planned_text, put_at, crlf};
ghost use Rattle.rules.specs.Promises.{HeadWritten};
ghost use Rattle.byte_put.specs.Puts.{Fills};
ghost use Rattle.write_line.specs.Parts.{plan_text};

use rules::{Date, Head, Reason, Refusal};
use write_ending::{close, refused};

// A flight date: DDMMYY, or six zeros where it is not given.
fn put_planned(out: &mut [u8], at: usize, f: Option<Date>)
    ensures { out.new ≡ put_at out.old at (planned_text f) }
{
    match f {
        Some(d) => write_fields::date(out, at, d),
        None => byte_put::digits(out, at, 6, 0),
    }
}

// What stands behind a head's date and time.
fn fill_plan(h: Head, rest: &[u8], out: &mut [u8])
    ensures { Fills out.old 13 (plan_text h rest.now ++ crlf) out.new }
{
    put_planned(out, 13, h.flight);
    byte_put::digits(out, 19, 4, h.task as u64);
    byte_put::digits(out, 23, 2, h.turns as u64);
    close(out, 25, rest);
}

// A head's line and its CR LF, at the front of an output.
fn fill_head(h: Head, rest: &[u8], out: &mut [u8])
    ensures { Fills out.old 0 (head_text h rest.now ++ crlf) out.new }
{
    byte_put::byte(out, 0, b'C');
    write_fields::date(out, 1, h.declared);
    write_fields::time(out, 7, h.time);
    fill_plan(h, rest, out);
}

// A C head line with the text behind its fields, into an output from a place on; the place after its CR LF. BadValue where no line reads as the head
// with that text, NoRoom where the output is too short.
pub fn head(h: Head, rest: &[u8], out: &mut [u8], place: usize) -> Result<usize, Refusal>
    ensures { HeadWritten h rest.now place out.old result out.new }
{
    if !write_limits::good_head(h, rest) {
        return refused(Reason::BadValue);
    }
    let n = 27 + rest.len();
    if out.len() < place || out.len() - place < n {
        return refused(Reason::NoRoom);
    }
    fill_head(h, rest, &mut out[place..]);
    Ok(place + n)
}
