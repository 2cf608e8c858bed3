// A text that is put whole or not at all.
#![tactic(auto)]

ghost use Rattle.text_whole.specs.Whole.{Delivered};

use text_pieces::put_text;

// A text at the start of a buffer, where the buffer has room for all of it; else the buffer stays as it is.
pub fn deliver(text: &[u8], out: &mut [u8]) -> Option<usize>
    ensures { Delivered text.now out.old result out.new }
{
    if out.len() < text.len() {
        return None;
    }
    let n = put_text(out, 0, text);
    Some(n)
}
