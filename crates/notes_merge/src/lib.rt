// Two copies of a file with evening notes brought together: the part that they have in common, then the notes of both.
#![tactic(auto)]

ghost use Rattle.std.specs.Prelude.{◌≡◌, ◌≤◌, length, take, drop};
ghost use Rattle.std.proofs.lemmas.List.Edits.{sets};
ghost use Rattle.notes_merge.specs.Merge.{StrictlyAccepted, FilesMerged};

use notes_fit::Woven;
use rules::{Reason, Refusal, Seal};

// How many bytes the merged file has; or a refusal: of the first file, of the second, or of neither (26, 2 or 18, with line 0 and byte 0).
#[derive(Clone, Copy)]
pub enum Brought {
    Whole(usize),
    First(Refusal),
    Second(Refusal),
    Neither(Refusal),
}

// What stands behind the first n bytes.
fn behind(file: &[u8], n: usize) -> &[u8]
    ensures { result.now ≡ drop n file.now }
{
    if file.len() < n {
        return &file[0..0];
    }
    &file[n..]
}

// The first n bytes of one list put into the front of the other.
fn copy_front(from: &[u8], n: usize, out: &mut [u8])
    requires { (n ≤ length from.now) × (n ≤ length out.old) }
    ensures { out.new ≡ sets out.old 0 (take n from.now) }
{
    let mut i = 0;
    while i < n {
        out[i] = from[i];
        i += 1;
    }
}

// Two files merged that pass the strict check.
fn bring(first: &[u8], second: &[u8], out: &mut [u8]) -> Brought
    requires { StrictlyAccepted first.now × StrictlyAccepted second.now }
    ensures { FilesMerged first.now second.now out.old result out.new }
{
    let Some(n) = notes_common::alike(first, second) else {
        return Brought::Neither(file_lines::unplaced(Reason::NotSame));
    };
    let one = behind(first, n);
    let two = behind(second, n);
    match notes_fit::weave(n, one, two, out) {
        Woven::TooLong => Brought::Neither(file_lines::unplaced(Reason::TooLong)),
        Woven::NoRoom => Brought::Neither(file_lines::unplaced(Reason::NoRoom)),
        Woven::Put(size) => {
            copy_front(first, n, out);
            Brought::Whole(size)
        }
    }
}

// Two copies of a file merged: everything up to the end of the last G line, then the L lines behind it in ascending byte order, a line that begins another first, each as
// often as in the copy that has it more often; how many bytes these are. Refused with the first file's refusal in the strict check, then the second's, 26 where the bytes up to
// the end of the last G lines differ, 2 where the merged file is over 16,777,216 bytes, 18 where the output is shorter. The output is unchanged where refused; bytes past the
// merged file stay.
pub fn merge(first: &[u8], second: &[u8], out: &mut [u8]) -> Brought
    ensures { FilesMerged first.now second.now out.old result out.new }
{
    let one = check_file::check_untabled(Seal::Strict, first);
    let found = one.outcome;
    match found {
        Err(why) => Brought::First(why),
        Ok(()) => {
            let two = check_file::check_untabled(Seal::Strict, second);
            let also = two.outcome;
            match also {
                Err(why) => Brought::Second(why),
                Ok(()) => bring(first, second, out),
            }
        }
    }
}
