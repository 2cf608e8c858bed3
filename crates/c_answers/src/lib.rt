// The lent answer of a call from C: its numbers, of which the first two tell a refusal's line and byte and the others the values.
#![tactic(auto)]

ghost use Rattle.c_answers.specs.Answers.{RefusalNumber, RefusalNumbers, ValueNumbers, CountNumbers, TimeNumbers, PresenceNumbers, AnswerGiven, BytesBetween};

use rules::{Presence, Refusal};

// How many numbers an answer has.
pub const SIZE: usize = 16;

// How many of them are values: behind the line and the byte of a refusal.
const VALUES: usize = 14;

// The number that a call returns, and the numbers of its answer.
#[derive(Clone, Copy, Debug, PartialEq, Eq)]
pub struct Numbers {
    pub number: u32,
    pub values: [u64; SIZE],
}

// The answer given, where it has its numbers; else 17, and nothing is changed.
pub fn give(answer: &mut [u64], n: Numbers) -> u32
    ensures { AnswerGiven answer.old n result answer.new }
{
    if answer.len() != SIZE {
        return 17;
    }
    answer.copy_from_slice(&n.values);
    n.number
}

// The number that is returned for a refusal.
pub fn number(why: Refusal) -> u32
    ensures { RefusalNumber why result }
{
    text_refusal::number(why.reason) as u32
}

// A refusal in numbers.
pub fn refused(why: Refusal) -> Numbers
    ensures { RefusalNumbers why result }
{
    Numbers {
        number: number(why),
        values: [
            why.line as u64,
            why.byte as u64,
            0,
            0,
            0,
            0,
            0,
            0,
            0,
            0,
            0,
            0,
            0,
            0,
            0,
            0,
        ],
    }
}

// Values in numbers, as many as an answer has room for; 0 behind the last.
pub fn accepted(values: &[u64]) -> Numbers
    ensures { ValueNumbers values.now result }
{
    let mut all = [0; SIZE];
    for i in 0..values.len().min(VALUES) {
        all[i + 2] = values[i];
    }
    Numbers {
        number: 0,
        values: all,
    }
}

// One number, as a count or a place, in numbers.
pub fn count(read: Result<usize, Refusal>) -> Numbers
    ensures { CountNumbers read result }
{
    match read {
        Ok(n) => accepted(&[n as u64]),
        Err(why) => refused(why),
    }
}

// Seconds of the day in numbers.
pub fn time(read: Result<u32, Refusal>) -> Numbers
    ensures { TimeNumbers read result }
{
    match read {
        Ok(t) => accepted(&[t as u64]),
        Err(why) => refused(why),
    }
}

// Which listed codes a layout carries, in numbers: the word, and how many columns.
pub fn presence(read: Result<Presence, Refusal>) -> Numbers
    ensures { PresenceNumbers read result }
{
    match read {
        Ok(p) => accepted(&[p.word as u64, p.count as u64]),
        Err(why) => refused(why),
    }
}

// How many bytes stand between two places, each told as the bytes before it; 0 where the second comes first.
pub fn between(from: usize, to: usize) -> u64
    ensures { BytesBetween from to result }
{
    to.saturating_sub(from) as u64
}
