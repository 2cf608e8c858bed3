// Lines that are carried and not read: G lines, L lines, and lines of a letter that has no rules of its own. Only their length and characters are looked at.
#![tactic(auto)]

ghost use Rattle.check_carried.specs.Carried.{SealJudged, RemarkJudged, OtherJudged};

use rules::{Refusal, State};

// A G line, of 2 to 255 bytes: the file is signed by it. Refused with 7, then 8; its kind and its place in the order are the caller's.
pub fn judge_seal(line: &[u8], st: State) -> Result<State, Refusal>
    ensures { SealJudged line.now st result }
{
    check_settle::after_outcome(
        byte_shape::shaped(line, 2, 255, false),
        check_state::signed_off(st),
    )
}

// An L line, of 1 to 99 bytes: it leaves the state as it is. Refused with 7, then 8.
pub fn judge_remark(line: &[u8], st: State) -> Result<State, Refusal>
    ensures { RemarkJudged line.now st result }
{
    check_settle::after_outcome(byte_shape::shaped(line, 1, 99, false), st)
}

// A line of another letter, of 1 to 255 bytes: it leaves the state as it is. Refused with 7, then 8.
pub fn judge_other(line: &[u8], st: State) -> Result<State, Refusal>
    ensures { OtherJudged line.now st result }
{
    check_settle::after_outcome(byte_shape::shaped(line, 1, 255, false), st)
}
