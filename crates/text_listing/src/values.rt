// Letters and altitudes, each put into the buffer at a place of it and answering the place behind it.
ghost use Rattle.text_pieces.specs.Buffer.{PiecePut};
ghost use Rattle.rules.specs.Listing.{shown_letter, shown_metres};
ghost use Rattle.text_listing.specs.Lines.{metres_behind};

use rules::Height;
use text_pieces::{put_byte, put_decimal};

// A space and a letter: the place behind them.
pub fn put_letter(out: &mut [u8], at: usize, b: u8) -> usize
    ensures { PiecePut out.old at (shown_letter b) result out.new }
{
    let next = put_byte(out, at, b' ');
    put_byte(out, next, b)
}

// A mark and a height in whole metres: the place behind them; a full buffer takes no more.
pub fn put_height(out: &mut [u8], at: usize, mark: u8, h: Height) -> usize
    ensures { PiecePut out.old at (metres_behind mark h.metres) result out.new }
{
    let a = put_byte(out, at, mark);
    let b = if rules_values::has_no_minus(h) {
        a
    } else {
        put_byte(out, a, b'-')
    };
    put_decimal(out, b, rules_values::magnitude(h))
}

// A space and an altitude: the place behind them.
pub fn put_metres(out: &mut [u8], at: usize, h: Height) -> usize
    ensures { PiecePut out.old at (shown_metres h.metres) result out.new }
{
    put_height(out, at, b' ', h)
}
