// The first line of a listing, from the whole check. Behind it come the pages, which `text_block` puts.
ghost use Rattle.igc_list.specs.First.{Begins};

use rules::{Layout, Reason, Refusal, Seal};

// The first line of a listing: how many bytes were put; and the file's lines and I layout, none where it is refused.
#[derive(Clone, Copy)]
pub struct Begun {
    pub count: usize,
    pub lines: u32,
    pub layout: Layout,
}

// Checks a file of at most `most` bytes and puts the first line of its listing into the buffer: OK and its counts; or REFUSED and why. 21 for a longer file, and the table is then
// unchanged; else the table is as `check_file::check` leaves it.
pub fn begin(seal: Seal, most: usize, file: &[u8], table: &mut [u32], out: &mut [u8; 288]) -> Begun
    ensures { Begins seal most file.now table.old out.old result table.new out.new }
{
    if most < file.len() {
        let over = Refusal {
            reason: Reason::InputOver,
            line: 0,
            byte: 0,
        };
        return Begun {
            count: text_listing::refused(over, out),
            lines: 0,
            layout: layout::empty_layout(),
        };
    }
    let checked = check_file::check(seal, file, table);
    let flight = checked.flight;
    let count = match checked.outcome {
        Err(why) => text_listing::refused(why, out),
        Ok(()) => text_listing::ok(flight, out),
    };
    Begun {
        count,
        lines: flight.lines,
        layout: flight.layouts.b,
    }
}
