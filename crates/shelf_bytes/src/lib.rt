// Bytes put in their place in a buffer: a number as four bytes, the low byte first; and bytes moved down.
#![tactic(auto)]

ghost use Rattle.shelf_bytes.specs.Stow.{WordPut, BytesMoved};

// A number as four bytes from a place on, the low byte first. They have room there as a whole, or nothing changes.
pub fn put_word(b: &mut [u8], at: usize, v: u32)
    ensures { WordPut v at b.old b.new }
{
    byte_put::text(b, at, &v.to_le_bytes());
}

// n bytes moved to a place that is not behind theirs. Nothing changes where it is behind theirs, or they do not lie inside the buffer.
pub fn move_down(b: &mut [u8], to: usize, from: usize, n: usize)
    ensures { BytesMoved to from n b.old b.new }
{
    if from < to || b.len() < from || b.len() - from < n {
        return;
    }
    b.copy_within(from..from + n, to);
}
