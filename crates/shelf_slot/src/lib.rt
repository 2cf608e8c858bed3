// An entry of a shelf, read and put.
#![tactic(auto)]

ghost use Rattle.std.specs.Prelude.{◌+◌, ◌*◌, ◌≤◌, ◌<◌, ◌≡◌, leb, length};
ghost use Rattle.shelf_rules.specs.Contents.{word};
ghost use Rattle.shelf_slot.specs.Entries.{SlotRead, ClearTest, SlotPut};

use shelf_rules::Slot;

// The four bytes from a place on as one number, the low byte first.
#[tactic(auto, unfolding(shelf_rules::specs::Contents::word))]
fn word_at(b: &[u8], at: usize) -> u32
    requires { at + 4 ≤ length b.now }
    ensures { result ≡ word b.now at }
{
    u32::from_le_bytes([b[at], b[at + 1], b[at + 2], b[at + 3]])
}

// The same where the buffer may end: a byte past the end is 0. Beside `word_at`, since an entry that lies inside the buffer, as all do in a shelf, is read without a test for each byte.
#[tactic(auto, unfolding(shelf_rules::specs::Contents::word))]
fn last_word(b: &[u8], at: usize) -> u32
    requires { at + 3 < 18446744073709551616 }
    ensures { result ≡ word b.now at }
{
    u32::from_le_bytes([
        byte_chars::byte(b, at),
        byte_chars::byte(b, at + 1),
        byte_chars::byte(b, at + 2),
        byte_chars::byte(b, at + 3),
    ])
}

// The entry n where the buffer may end.
fn last_slot(b: &[u8], n: usize) -> Slot
    ensures { SlotRead b.now n result }
{
    if b.len() / 12 < n {
        return Slot::default();
    }
    Slot {
        number: last_word(b, 12 * n),
        start: last_word(b, 12 * n + 4),
        size: last_word(b, 12 * n + 8),
    }
}

// The entry n; a byte past the end of the buffer is 0.
pub fn slot_at(b: &[u8], n: usize) -> Slot
    ensures { SlotRead b.now n result }
{
    if b.len() / 12 <= n {
        return last_slot(b, n);
    }
    Slot {
        number: word_at(b, 12 * n),
        start: word_at(b, 12 * n + 4),
        size: word_at(b, 12 * n + 8),
    }
}

// Whether `size` bytes from a start on end at a place or before it.
fn ends_by(start: usize, size: usize, place: usize) -> bool
    ensures { result ≡ leb (start + size) place }
{
    start <= place && size <= place - start
}

// Whether `size` bytes from a start on overlap no byte of an entry's body.
pub fn is_clear(start: usize, size: usize, t: Slot) -> bool
    ensures { ClearTest start size t result }
{
    ends_by(start, size, t.start as usize) || t.start as usize + t.size as usize <= start
}

// The entry n. Its bytes have room as a whole, or nothing changes.
pub fn put_slot(b: &mut [u8], n: usize, s: Slot)
    ensures { SlotPut s n b.old b.new }
{
    if b.len() < 12 || (b.len() - 12) / 12 < n {
        return;
    }
    shelf_bytes::put_word(b, 12 * n, s.number);
    shelf_bytes::put_word(b, 12 * n + 4, s.start);
    shelf_bytes::put_word(b, 12 * n + 8, s.size);
}
