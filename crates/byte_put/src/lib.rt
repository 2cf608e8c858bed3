// Bytes, texts and digits put into a lent output at a place of it. Each has room there as a whole, or nothing changes.
#![tactic(auto)]

ghost use Rattle.rules.specs.Promises.{DigitsPut};
ghost use Rattle.byte_put.specs.Puts.{BytePut, TextPut};

// One byte.
pub fn byte(out: &mut [u8], at: usize, b: u8)
    ensures { BytePut b at out.old out.new }
{
    if out.len() <= at {
        return;
    }
    out[at] = b;
}

// A text.
pub fn text(out: &mut [u8], at: usize, bytes: &[u8])
    ensures { TextPut bytes.now at out.old out.new }
{
    let n = bytes.len();
    if out.len() < at || out.len() - at < n {
        return;
    }
    // No `copy_from_slice`: it would have the library ask for `memmove`, and a `for` asks for `memcpy`.
    for i in 0..n {
        out[at + i] = bytes[i];
    }
}

// The last n decimal digits of v, with zeros before them where v has fewer.
pub fn digits(out: &mut [u8], at: usize, n: usize, v: u64)
    ensures { DigitsPut n v at out.old out.new }
{
    if out.len() < at || out.len() - at < n {
        return;
    }
    let mut x = v;
    for i in (0..n).rev() {
        out[at + i] = b'0' + (x % 10) as u8;
        x /= 10;
    }
}
