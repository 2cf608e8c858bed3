// The calls from C that tell a refusal in words: its name, and its explanation with the line's text and the caret. Each is put at the start of a lent text.
#![tactic(auto)]

mod reasons;

ghost use Rattle.c_refusals.specs.Calls.{name_of, explained_of, WordsPut, NameAnswered, ExplainAnswered};
ghost use Rattle.std.specs.Prelude.{Some};

use c_answers::SIZE;
use reasons::reason_of;
use rules::{Reason, Refusal};

// Words put at the start of a lent text, where it has room for them.
fn put(words: &[u8], text: &mut [u8]) -> Result<usize, Refusal>
    ensures { WordsPut (Some words.now) text.old result text.new }
{
    if text.len() < words.len() {
        return write_ending::refused(Reason::NoRoom);
    }
    Ok(text_pieces::put_text(text, 0, words))
}

fn put_name(number: u32, text: &mut [u8]) -> Result<usize, Refusal>
    ensures { WordsPut (name_of number) text.old result text.new }
{
    let Some(reason) = reason_of(number) else {
        return write_ending::refused(Reason::BadValue);
    };
    let mut words = [0u8; 16];
    let n = text_refusal::put_name(&mut words, 0, reason);
    put(&words[..n], text)
}

fn put_explanation(
    file: &[u8],
    number: u32,
    line: u32,
    byte: u32,
    text: &mut [u8],
) -> Result<usize, Refusal>
    ensures { WordsPut (explained_of file.now number line byte) text.old result text.new }
{
    let Some(reason) = reason_of(number) else {
        return write_ending::refused(Reason::BadValue);
    };
    let why = Refusal { reason, line, byte };
    let mut words = [0u8; 400];
    let n = text_explain::refused(file, why, &mut words);
    put(&words[..n], text)
}

// The name of a refusal's number.
pub fn name(number: u32, text: &mut [u8], answer: &mut [u64]) -> u32
    ensures { NameAnswered number text.old answer.old result text.new answer.new }
{
    if answer.len() != SIZE {
        return 17;
    }
    let wrote = put_name(number, text);
    c_answers::give(answer, c_answers::count(wrote))
}

// A refusal of a file explained: its number and name, the line and the byte, when it is given; below it the line's text, and the caret.
pub fn explain(
    file: &[u8],
    number: u32,
    line: u32,
    byte: u32,
    text: &mut [u8],
    answer: &mut [u64],
) -> u32
    ensures { ExplainAnswered file.now number line byte text.old answer.old result text.new answer.new }
{
    if answer.len() != SIZE {
        return 17;
    }
    let wrote = put_explanation(file, number, line, byte, text);
    c_answers::give(answer, c_answers::count(wrote))
}
