// The entry and the start of a body that is to be added to a sound shelf: the first free entry, and the smallest start where the body fits.
#![tactic(auto)]

ghost use Rattle.std.specs.Prelude.{◌≡◌};
ghost use Rattle.shelf_rules.specs.Shelf.{usable};
ghost use Rattle.shelf_place.specs.Plans.{SpotAllotted};

use rules::{Reason, Refusal};
use shelf_rules::Spot;

// Whether a number is not 0 and not in use.
fn is_usable(shelf: &[u8], number: u32) -> bool
    ensures { result ≡ usable shelf.now number }
{
    number != 0 && shelf_contents::entry_of(shelf, number).is_none()
}

// The entry and the start for a body of `size` bytes. Refused with 28 for number 0 or one in use, then 29 where no entry is free, then 30 where no free run is long enough. Whether
// the shelf is sound is not looked at: 27 is the caller's.
pub fn spot_for(shelf: &[u8], number: u32, size: usize) -> Result<Spot, Refusal>
    ensures { SpotAllotted shelf.now number size result }
{
    if !is_usable(shelf, number) {
        return Err(file_lines::unplaced(Reason::Id));
    }
    let entry = shelf_contents::entry_of(shelf, 0).ok_or(file_lines::unplaced(Reason::Entries))?;
    let start = shelf_gap::place_for(shelf, size).ok_or(file_lines::unplaced(Reason::NoRun))?;
    Ok(Spot { entry, start })
}
