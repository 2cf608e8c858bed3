// The notes of two slices woven into one and put into an output, where they have room there.
#![tactic(auto)]

ghost use Rattle.std.specs.Prelude.{◌&&◌, ◌≡◌, leb};
ghost use Rattle.notes_fit.specs.Weave.{NotesWoven};

use notes_weave::put_notes;

// Whether so many bytes are allowed and have room.
fn has_room(most: usize, room: usize) -> bool
    ensures { result ≡ (leb most 16777216 && leb most room) }
{
    most <= 16777216 && most <= room
}

// What became of the notes: they were put, and so many bytes the whole has; or it is over 16,777,216 bytes; or the output has no room.
#[derive(Clone, Copy)]
pub enum Woven {
    Put(usize),
    TooLong,
    NoRoom,
}

// The notes of two slices woven into one and put into the output behind `front` bytes: in order, each as often as in the slice that has it more often. The output stays as it is
// where a slice or the whole is over 16,777,216 bytes, and where it has no room.
pub fn weave(front: usize, a: &[u8], b: &[u8], out: &mut [u8]) -> Woven
    ensures { NotesWoven front a.now b.now out.old result out.new }
{
    if 16777216 < a.len() {
        return Woven::TooLong;
    }
    if 16777216 < b.len() {
        return Woven::TooLong;
    }
    if 16777216 < front {
        return Woven::TooLong;
    }
    // each slice may lack the CR LF of its last note: 4 bytes more
    let most = front + a.len() + b.len() + 4;
    if has_room(most, out.len()) {
        return Woven::Put(put_notes(a, b, front, out));
    }
    let mut none = [0u8; 1];
    let n = put_notes(a, b, front, &mut none);
    if 16777216 < n {
        return Woven::TooLong;
    }
    if out.len() < n {
        return Woven::NoRoom;
    }
    put_notes(a, b, front, out);
    Woven::Put(n)
}
