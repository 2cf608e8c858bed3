// The text of a line and a caret under a byte of it, put into a buffer at a place of it, with the place behind them as the answer.
#![tactic(auto)]

ghost use Rattle.std.specs.Prelude.{◌≤◌, map, ◌≡◌, replicate};
ghost use Rattle.text_pieces.specs.Buffer.{PiecePut};
ghost use Rattle.text_quote.specs.Quote.{visible, window, window_line, caret_line, BytesBefore, QuotePut};

use text_pieces::put_byte;

// A byte as it is shown.
#[tactic(auto, using(std::proofs::lemmas::Bool::Decides::nat_tests), unfolding(crate::specs::Quote::visible))]
fn visible(b: u8) -> u8
    ensures { result ≡ visible b }
{
    match b {
        b' '..=b'~' => b,
        _ => b'?',
    }
}

// The bytes of a text, each as it is shown.
fn put_visible(out: &mut [u8], at: usize, text: &[u8]) -> usize
    ensures { PiecePut out.old at (map visible text.now) result out.new }
{
    let mut next = at;
    for b in text {
        next = put_byte(out, next, visible(*b));
    }
    next
}

fn put_spaces(out: &mut [u8], at: usize, n: usize) -> usize
    ensures { PiecePut out.old at (replicate n 32) result out.new }
{
    let mut next = at;
    for _ in 0..n {
        next = put_byte(out, next, b' ');
    }
    next
}

// How many bytes of a line stand before those shown with a byte of it.
pub fn bytes_before(byte: usize) -> usize
    ensures { BytesBefore byte result }
{
    if byte <= 80 {
        return 0;
    }
    byte - 41
}

// The bytes shown with a byte of a line.
fn window(text: &[u8], byte: usize) -> &[u8]
    ensures { result.now ≡ window byte text.now }
{
    let rest = text.get(bytes_before(byte)..).unwrap_or_default();
    &rest[..rest.len().min(80)]
}

fn put_window(out: &mut [u8], at: usize, text: &[u8], byte: usize) -> usize
    ensures { PiecePut out.old at (window_line byte text.now) result out.new }
{
    let next = put_visible(out, at, window(text, byte));
    put_byte(out, next, b'\n')
}

fn put_caret(out: &mut [u8], at: usize, byte: usize) -> usize
    requires { 1 ≤ byte }
    ensures { PiecePut out.old at (caret_line byte) result out.new }
{
    let from = bytes_before(byte);
    let a = put_spaces(out, at, byte - 1 - from);
    let b = put_byte(out, a, b'^');
    put_byte(out, b, b'\n')
}

// A line's text, and the caret under its byte, where there is one.
pub fn put_quote(out: &mut [u8], at: usize, text: &[u8], byte: usize) -> usize
    ensures { QuotePut byte text.now out.old at result out.new }
{
    if byte == 0 {
        if text.len() == 0 {
            return at;
        }
        return put_window(out, at, text, 0);
    }
    let next = put_window(out, at, text, byte);
    put_caret(out, next, byte)
}
