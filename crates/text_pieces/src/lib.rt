// The pieces of a text put together in a lent buffer, each at a place of it and answering the place behind it. A full buffer takes no more.
#![tactic(auto)]

ghost use Rattle.std.specs.Prelude.{[], ◌∷◌};
ghost use Rattle.rules.specs.Listing.{decimal, shown};
ghost use Rattle.text_pieces.specs.Buffer.{PiecePut};

// One byte, where there is room for it.
pub fn put_byte(out: &mut [u8], at: usize, b: u8) -> usize
    ensures { PiecePut out.old at (b ∷ []) result out.new }
{
    if at < out.len() {
        out[at] = b;
        at + 1
    } else {
        at
    }
}

// A text, as far as there is room for it.
pub fn put_text(out: &mut [u8], at: usize, text: &[u8]) -> usize
    ensures { PiecePut out.old at text.now result out.new }
{
    let mut next = at;
    for b in text {
        next = put_byte(out, next, *b);
    }
    next
}

// A number in decimal, with no zero in front: its digits from the last to the first, then as a text.
pub fn put_decimal(out: &mut [u8], at: usize, n: u64) -> usize
    ensures { PiecePut out.old at (decimal n) result out.new }
{
    let mut digits = [b'0'; 20];
    let mut x = n;
    for i in (1..20).rev() {
        if x < 10 {
            digits[i] = b'0' + x as u8;
            return put_text(out, at, &digits[i..]);
        }
        digits[i] = b'0' + (x % 10) as u8;
        x /= 10;
    }
    digits[0] = b'0' + x as u8;
    put_text(out, at, &digits)
}

// A space and a number.
pub fn put_shown(out: &mut [u8], at: usize, n: u64) -> usize
    ensures { PiecePut out.old at (shown n) result out.new }
{
    let next = put_byte(out, at, b' ');
    put_decimal(out, next, n)
}
