// The first line of an explanation, and the whole, put into a buffer, with the place behind them as the answer.
ghost use Rattle.text_pieces.specs.Buffer.{PiecePut};
ghost use Rattle.text_explain.specs.Explanation.{called, counted, placed, begun, meant, head, explanation};

use rules::{Reason, Refusal};
use text_faulty::line_text;
use text_pieces::{put_byte, put_shown, put_text};
use text_quote::{bytes_before, put_quote};
use text_refusal::{put_meaning, put_name};

fn put_called(out: &mut [u8], reason: Reason) -> usize
    ensures { PiecePut out.old 0 (called reason) result out.new }
{
    let number = text_refusal::number(reason);
    let a = put_text(out, 0, b"REFUSED");
    let b = put_shown(out, a, number as u64);
    let c = put_byte(out, b, b' ');
    put_name(out, c, reason)
}

fn put_counted(out: &mut [u8], at: usize, word: &[u8], n: u32) -> usize
    ensures { PiecePut out.old at (counted word.now n) result out.new }
{
    if n == 0 {
        return at;
    }
    let next = put_text(out, at, word);
    put_shown(out, next, n as u64)
}

fn put_placed(out: &mut [u8], at: usize, line: u32, byte: u32) -> usize
    ensures { PiecePut out.old at (placed line byte) result out.new }
{
    let next = put_counted(out, at, b", line", line);
    put_counted(out, next, b", byte", byte)
}

fn put_begun(out: &mut [u8], at: usize, byte: u32) -> usize
    ensures { PiecePut out.old at (begun byte) result out.new }
{
    let from = bytes_before(byte as usize);
    if from == 0 {
        return at;
    }
    let a = put_text(out, at, b" (text from byte");
    let b = put_shown(out, a, from as u64 + 1);
    put_text(out, b, b")")
}

fn put_meant(out: &mut [u8], at: usize, reason: Reason, byte: u32) -> usize
    ensures { PiecePut out.old at (meant reason byte) result out.new }
{
    let a = put_text(out, at, b": ");
    let b = put_meaning(out, a, reason);
    let c = put_begun(out, b, byte);
    put_byte(out, c, b'\n')
}

fn put_head(out: &mut [u8], why: Refusal) -> usize
    ensures { PiecePut out.old 0 (head why) result out.new }
{
    let reason = why.reason;
    let a = put_called(out, reason);
    let b = put_placed(out, a, why.line, why.byte);
    put_meant(out, b, reason, why.byte)
}

pub(crate) fn put_explanation(out: &mut [u8], file: &[u8], why: Refusal) -> usize
    ensures { PiecePut out.old 0 (explanation file.now why) result out.new }
{
    let next = put_head(out, why);
    if why.line == 0 {
        return next;
    }
    put_quote(out, next, line_text(file, why.line), why.byte as usize)
}
