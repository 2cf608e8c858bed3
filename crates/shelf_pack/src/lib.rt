// A shelf packed: its bodies moved to the front in order of start, without gaps.
#![tactic(auto)]

ghost use Rattle.std.specs.Prelude.{true, ◌≡◌, ◌+◌, ◌≤◌, ◌<◌, length};
ghost use Rattle.shelf_rules.specs.Contents.{start_of, size_of, slot_of, sound};
ghost use Rattle.shelf_rules.specs.Moves.{NextOf, moved_to};
ghost use Rattle.shelf_rules.specs.Packing.{Packed};
ghost use Rattle.shelf_pack.specs.Pack.{ShelfPacked};

use rules::{Reason, Refusal};
use shelf_rules::Slot;

// Of the first n + 1 entries, the one that starts least from a place on, told that of the first n.
fn nearer(shelf: &[u8], from: usize, best: Option<usize>, n: usize) -> Option<usize>
    requires { NextOf shelf.now from n best }
    ensures { NextOf shelf.now from (n + 1) result }
{
    let start = shelf_slot::slot_at(shelf, n).start as usize;
    if start < from {
        return best;
    }
    match best {
        Some(m) if shelf_slot::slot_at(shelf, m).start as usize <= start => best,
        _ => Some(n),
    }
}

// The entry that starts least from a place on.
fn next(shelf: &[u8], from: usize) -> Option<usize>
    ensures { NextOf shelf.now from 64 result }
{
    let mut best = None;
    for n in 0..64 {
        best = nearer(shelf, from, best, n);
    }
    best
}

// The body of entry n moved down to a place, and that place put as its start; the entry as it was before.
fn move_to(shelf: &mut [u8], n: usize, at: usize) -> Slot
    requires { (768 ≤ length shelf.old) × ((n < 64) × ((at ≤ start_of shelf.old n) × (start_of shelf.old n + size_of shelf.old n ≤ length shelf.old))) }
    ensures { (result ≡ slot_of shelf.old n) × (shelf.new ≡ moved_to shelf.old n at) }
{
    let s = shelf_slot::slot_at(shelf, n);
    shelf_bytes::move_down(shelf, at, s.start as usize, s.size as usize);
    shelf_bytes::put_word(shelf, 12 * n + 4, at as u32);
    s
}

// A sound shelf packed: the body that starts first is moved to 768, and each next one to the end of the one before.
fn pack_sound(shelf: &mut [u8])
    requires { sound shelf.old ≡ true }
    ensures { Packed shelf.old shelf.new }
{
    let mut at = 768;
    let mut from = 768;
    while let Some(n) = next(shelf, from) {
        let s = move_to(shelf, n, at);
        at += s.size as usize;
        from = s.start as usize + s.size as usize;
    }
}

// A shelf packed: its bodies moved to the front in order of start, without gaps, their starts told anew, and no other byte changed. Refused with 27 where the buffer breaks the rules of a
// shelf, and then nothing changes.
pub fn pack(shelf: &mut [u8]) -> Result<(), Refusal>
    ensures { ShelfPacked shelf.old result shelf.new }
{
    if !shelf_contents::is_sound(shelf) {
        return Err(file_lines::unplaced(Reason::Shelf));
    }
    pack_sound(shelf);
    Ok(())
}
