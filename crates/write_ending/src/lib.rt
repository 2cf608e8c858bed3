// How every line that is written ends, and how a writer refuses.
#![tactic(auto)]

ghost use Rattle.write_ending.specs.Ends.{LineClosed, WriteRefused};

use rules::{Reason, Refusal};

// The text behind a line's fields, and its CR LF. They have room there as a whole, or nothing changes.
pub fn close(out: &mut [u8], at: usize, rest: &[u8])
    ensures { LineClosed rest.now at out.old out.new }
{
    if out.len() < at || out.len() - at < rest.len() + 2 {
        return;
    }
    byte_put::text(out, at, rest);
    byte_put::text(out, at + rest.len(), b"\r\n");
}

// The refusal of a writer: line 0, byte 0.
pub fn refused(reason: Reason) -> Result<usize, Refusal>
    ensures { WriteRefused reason result }
{
    Err(Refusal {
        reason,
        line: 0,
        byte: 0,
    })
}
