// The table of contents of a shelf: whether a buffer keeps the rules of a shelf, and an entry by its flight number.
#![tactic(auto)]

ghost use Rattle.std.specs.Prelude.{◌<◌, ◌≡◌};
ghost use Rattle.shelf_rules.specs.Contents.{one_kept, two_kept, slot_sound};
ghost use Rattle.shelf_contents.specs.Questions.{SoundTest, EntryFound};

use shelf_rules::Slot;

// Whether an entry keeps the rules for one entry, in a buffer of `room` bytes.
#[tactic(auto, unfolding(shelf_rules::specs::Contents::one_kept))]
fn one_kept(s: Slot, room: usize) -> bool
    ensures { result ≡ one_kept room s }
{
    if s.number == 0 {
        return s.start == 0 && s.size == 0;
    }
    1 <= s.size && 768 <= s.start && s.start as usize + s.size as usize <= room
}

// Whether two entries keep the rules for two entries.
#[tactic(auto, unfolding(shelf_rules::specs::Contents::two_kept))]
fn two_kept(s: Slot, t: Slot) -> bool
    ensures { result ≡ two_kept s t }
{
    shelf_slot::is_clear(s.start as usize, s.size as usize, t)
        && (s.number == 0 || s.number != t.number)
}

// Whether the entry n keeps the rules, alone and with those before it.
fn slot_sound(b: &[u8], n: usize) -> bool
    requires { n < 64 }
    ensures { result ≡ slot_sound b.now n }
{
    let s = shelf_slot::slot_at(b, n);
    if !one_kept(s, b.len()) {
        return false;
    }
    for m in 0..n {
        if !two_kept(s, shelf_slot::slot_at(b, m)) {
            return false;
        }
    }
    true
}

// Whether a buffer keeps the rules of a shelf.
pub fn is_sound(b: &[u8]) -> bool
    ensures { SoundTest b.now result }
{
    if b.len() < 768 || 16777216 < b.len() {
        return false;
    }
    for n in 0..64 {
        if !slot_sound(b, n) {
            return false;
        }
    }
    true
}

// The first entry with a flight number; with 0, the first free entry. Nothing, where no entry has it.
pub fn entry_of(b: &[u8], number: u32) -> Option<usize>
    ensures { EntryFound b.now number result }
{
    for n in 0..64 {
        if shelf_slot::slot_at(b, n).number == number {
            return Some(n);
        }
    }
    None
}
