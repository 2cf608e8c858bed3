// A refusal told to a person: its number and name, the line and the byte, when the number is given, and the line's text with a caret under the byte.
#![tactic(auto)]

mod told;

ghost use Rattle.text_explain.specs.Explanation.{RefusalExplained};

use rules::Refusal;
use told::put_explanation;

// What a person reads of a refusal of the file, at the start of the buffer: how many bytes that is. One line where the refusal names no line; else the line's text
// below it, and a caret where it names a byte.
pub fn refused(file: &[u8], why: Refusal, out: &mut [u8; 400]) -> usize
    ensures { RefusalExplained file.now why out.old result out.new }
{
    put_explanation(out, file, why)
}
