// A refusal in words: the name of its number, and the whole of it explained.
ghost use Rattle.c_refusals.specs.Calls.{NameAnswered, ExplainAnswered};

// The name of a refusal's number, at the start of the lent text.
#[unsafe(no_mangle)]
pub extern "C" fn hive_name(number: u32, text: &mut [u8], answer: &mut [u64]) -> u32
    ensures { NameAnswered number text.old answer.old result text.new answer.new }
{
    c_refusals::name(number, text, answer)
}

// A refusal of a file explained, at the start of the lent text.
#[unsafe(no_mangle)]
pub extern "C" fn hive_explain(
    file: &[u8],
    number: u32,
    line: u32,
    byte: u32,
    text: &mut [u8],
    answer: &mut [u64],
) -> u32
    ensures { ExplainAnswered file.now number line byte text.old answer.old result text.new answer.new }
{
    c_refusals::explain(file, number, line, byte, text, answer)
}
