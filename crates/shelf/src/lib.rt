// A shelf of flights in one lent buffer: a flight added, asked for, removed; the shelf packed.
#![tactic(auto)]

ghost use Rattle.rules.specs.Refusals.{result_told};
ghost use Rattle.std.specs.Prelude.{◌≡◌};
ghost use Rattle.shelf_rules.specs.Shelf.{held_at, add_said};
ghost use Rattle.shelf_rules.specs.Calls.{FlightAdded, FlightAsked, BodyGiven, FlightRemoved};

use rules::{Reason, Refusal, Seal};
pub use shelf_pack::pack;
use shelf_rules::{Extent, Slot, Spot};

// The entry of a flight. Refused with 27 where the buffer is no sound shelf, then 31 for 0 or a number not held.
fn held_at(shelf: &[u8], number: u32) -> Result<usize, Refusal>
    ensures { result_told result ≡ held_at shelf.now number }
{
    if !shelf_contents::is_sound(shelf) {
        return Err(file_lines::unplaced(Reason::Shelf));
    }
    if number == 0 {
        return Err(file_lines::unplaced(Reason::NotFound));
    }
    shelf_contents::entry_of(shelf, number).ok_or(file_lines::unplaced(Reason::NotFound))
}

// Where a flight's body stands in the buffer: its start and its length. Refused with 27 where the buffer is no sound shelf, then 31 for 0 or a number not held.
pub fn ask(shelf: &[u8], number: u32) -> Result<Extent, Refusal>
    ensures { FlightAsked shelf.now number result }
{
    let n = held_at(shelf, number)?;
    let s = shelf_slot::slot_at(shelf, n);
    Ok(Extent {
        start: s.start as usize,
        size: s.size as usize,
    })
}

// A flight's body as a part of the buffer; no bytes where `ask` refuses it.
pub fn body<'a>(shelf: &'a [u8], number: u32) -> &'a [u8]
    ensures { BodyGiven shelf.now number result.now }
{
    match ask(shelf, number) {
        Ok(Extent { start, size }) => &shelf[start..start + size],
        Err(_) => &shelf[0..0],
    }
}

// A flight removed: its entry is zeros afterwards, and nothing else changes. Refused with 27 where the buffer is no sound shelf, then 31 for 0 or a number not held; the
// buffer is unchanged then.
pub fn remove(shelf: &mut [u8], number: u32) -> Result<(), Refusal>
    ensures { FlightRemoved shelf.old number result shelf.new }
{
    let n = held_at(shelf, number)?;
    shelf_slot::put_slot(shelf, n, Slot::default());
    Ok(())
}

// The entry and the start for a file. Refused with 27, then the file's own refusal, then 28, 29 or 30.
fn plan_add(shelf: &[u8], number: u32, file: &[u8]) -> Result<Spot, Refusal>
    ensures { result_told result ≡ add_said shelf.now number file.now }
{
    if !shelf_contents::is_sound(shelf) {
        return Err(file_lines::unplaced(Reason::Shelf));
    }
    let checked = check_file::check_untabled(Seal::Usual, file);
    checked.outcome?;
    shelf_place::spot_for(shelf, number, file.len())
}

// A file added as a flight: the first free entry is its, and its body stands at the smallest start where it fits between the others; that start. Nothing else changes.
// Refused with 27 where the buffer is no sound shelf, then with the file's own refusal in the usual check, with its line and byte, then 28 for number 0 or one in use, 29
// where no entry is free, 30 where no free run is long enough; the buffer is unchanged then.
pub fn add(shelf: &mut [u8], number: u32, file: &[u8]) -> Result<usize, Refusal>
    ensures { FlightAdded shelf.old number file.now result shelf.new }
{
    let Spot { entry, start } = plan_add(shelf, number, file)?;
    byte_put::text(shelf, start, file);
    shelf_slot::put_slot(
        shelf,
        entry,
        Slot {
            number,
            start: start as u32,
            size: file.len() as u32,
        },
    );
    Ok(start)
}
