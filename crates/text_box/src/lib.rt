// The box of a flight as text: its least and greatest latitude and longitude in degrees, of the twelve numbers of its summary.
#![tactic(auto)]

ghost use Rattle.std.specs.Prelude.{◌≡◌};
ghost use Rattle.text_pieces.specs.Buffer.{PiecePut};
ghost use Rattle.text_twelve.specs.Twelve.{number};
ghost use Rattle.text_box.specs.Boxed.{point_of, point_shown, latitudes_shown, longitudes_shown, box_shown};

use rules::{FinePosition, Height};
use text_pieces::put_text;

// A signed count as a position.
fn point(z: Height) -> FinePosition
    ensures { result ≡ point_of z.metres }
{
    let count = rules_values::magnitude(z);
    if rules_values::has_no_minus(z) {
        return FinePosition {
            count,
            letter: b'N',
            decimals: 0,
        };
    }
    FinePosition {
        count,
        letter: b'S',
        decimals: 0,
    }
}

// The number at a place, in degrees.
fn put_point(out: &mut [u8], at: usize, list: &[i32], i: usize) -> usize
    ensures { PiecePut out.old at (point_shown (number list.now i)) result out.new }
{
    text_decimals::put_degrees(out, at, point(text_twelve::number_at(list, i)))
}

// The least and the greatest latitude.
fn put_latitudes(out: &mut [u8], at: usize, list: &[i32]) -> usize
    ensures { PiecePut out.old at (latitudes_shown list.now) result out.new }
{
    let a = put_point(out, at, list, 8);
    put_point(out, a, list, 9)
}

// The least and the greatest longitude.
fn put_longitudes(out: &mut [u8], at: usize, list: &[i32]) -> usize
    ensures { PiecePut out.old at (longitudes_shown list.now) result out.new }
{
    let a = put_point(out, at, list, 10);
    put_point(out, a, list, 11)
}

// The box of the flight, or four dashes where no fix is marked A. The answer is the place behind it; a full buffer takes no more.
pub fn put_box(out: &mut [u8], at: usize, list: &[i32]) -> usize
    ensures { PiecePut out.old at (box_shown list.now) result out.new }
{
    if text_twelve::is_none(list, 7) {
        return put_text(out, at, b" - - - -");
    }
    let a = put_latitudes(out, at, list);
    put_longitudes(out, a, list)
}
