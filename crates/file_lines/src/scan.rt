// Where CR LF stands in a file, and where a line ends.
ghost use Rattle.std.specs.Prelude.{◌≤◌, ◌&&◌, ◌≡◌, length, drop};
ghost use Rattle.rules.specs.Split.{begins_crlf, is_start};
ghost use Rattle.file_lines.specs.Ends.{is_inside, InsideTold, EndedAlike, FirstFound, LineEnded};

// Whether CR LF stands behind i bytes.
#[tactic(auto, using(rules_laws::proofs::LineEnds::begins_short, rules_laws::proofs::LineEnds::begins_cr, rules_laws::proofs::LineEnds::begins_not))]
fn is_crlf(file: &[u8], i: usize) -> bool
    ensures { result ≡ begins_crlf (drop i file.now) }
{
    let n = file.len();
    if n < 2 || n - 2 < i {
        return false;
    }
    file[i] == 13 && file[i + 1] == 10
}

// How many bytes stand before the first CR LF from a place on. Nothing, where none comes.
#[tactic(auto, using(crate::proofs::Places::first_here, crate::proofs::Places::first_next, crate::proofs::Places::first_none))]
pub fn crlf_from(file: &[u8], at: usize) -> Option<usize>
    ensures { FirstFound file.now at result }
{
    for i in at..file.len() {
        if is_crlf(file, i) {
            return Some(i);
        }
    }
    None
}

// Whether a line may start behind o bytes: at the file's first byte, or just past a CR LF.
#[tactic(auto, unfolding(rules::specs::Split::is_start))]
pub(crate) fn is_start(file: &[u8], o: usize) -> bool
    ensures { result ≡ is_start file.now o }
{
    o == 0 || 2 <= o && is_crlf(file, o - 2)
}

// How a line ends: by CR LF, or by a CR or LF that is not CR LF or the end of the file; how many bytes stand before that.
#[derive(Clone, Copy, Debug, PartialEq, Eq)]
pub enum Ended {
    At(usize),
    Broken(usize),
}

// Whether none of the bytes so far ends a line, and this one does not.
#[tactic(auto, unfolding(crate::specs::Ends::is_inside))]
fn still_inside(ok: bool, b: u8) -> bool
    ensures { result ≡ (ok && is_inside b) }
{
    ok & ((b != 13) & (b != 10))
}

// Whether none of eight bytes is CR or LF. It has no way out before the last one, so that the compiler takes them all at once.
#[tactic(auto, using(crate::proofs::Places::inside_more))]
fn is_inside(eight: &[u8]) -> bool
    requires { length eight.now ≡ 8 }
    ensures { InsideTold eight.now result }
{
    let mut ok = true;
    for i in 0..8 {
        ok = still_inside(ok, eight[i]);
    }
    ok
}

// Past as many bytes as go by eights and have no CR or LF: the line ends as it does from there on. Chunks of eight, counted, with the place made from the count, would be no plainer.
#[tactic(auto, using(crate::proofs::Places::part_eight, crate::proofs::Places::past_part))]
fn past_eights(file: &[u8], from: usize) -> usize
    requires { from ≤ length file.now }
    ensures { EndedAlike file.now from result }
{
    let mut i = from;
    while 8 <= file.len() - i {
        if !is_inside(&file[i..i + 8]) {
            return i;
        }
        i += 8;
    }
    i
}

// How the line that starts behind `from` bytes ends, by the first CR or LF from there on.
#[tactic(auto, using(crate::proofs::Places::past_end, crate::proofs::Places::at_text, crate::proofs::Places::at_lf, crate::proofs::Places::at_crlf, crate::proofs::Places::at_cr_other))]
pub fn line_end(file: &[u8], from: usize) -> Ended
    ensures { LineEnded file.now from result }
{
    if file.len() < from {
        return Ended::Broken(from);
    }
    for i in past_eights(file, from)..file.len() {
        let b = file[i];
        if b == 13 {
            if is_crlf(file, i) {
                return Ended::At(i);
            }
            return Ended::Broken(i);
        }
        if b == 10 {
            return Ended::Broken(i);
        }
    }
    Ended::Broken(file.len())
}
