// A body line that is surely good, taken by the numbers that it moves.
ghost use Rattle.std.specs.Prelude.{◌<◌, ◌≡◌, length, get_or};
ghost use Rattle.rules.specs.Families.{line_letter};
ghost use Rattle.check_ahead.specs.Paces.{ColumnedTold, OtherTold, FamilyTaken, OtherTaken, LineTaken};

use check_clock::Pace;
use file_lines::Ended;
use rules::{Extra, Family, Refusal};

// The form of a family's lines: their length, and the pattern of their columns.
#[derive(Clone, Copy)]
pub(crate) struct Form<'a> {
    pub size: usize,
    pub pattern: &'a [u8],
}

// A line of a family, by the form of its lines.
fn columned_line(family: Family, line: &[u8], form: Form<'_>, p: Pace, next: usize) -> Option<Pace>
    ensures { ColumnedTold family line.now form.entry.size form.entry.pattern.now p next result }
{
    let time = check_sure::sure_line(family, line, form.size, form.pattern);
    check_clock::after_time(time, p, next, check_counts::one_more(family, p.counts))
}

// The line behind the pace's bytes, of a family, with its CR LF behind `size` bytes.
fn take_columned(file: &[u8], p: Pace, family: Family, form: Form<'_>) -> Option<Pace>
    requires { (p.at < length file.now) × (get_or file.now p.at 0 ≡ line_letter family) }
    ensures { FamilyTaken family file.now p form.entry.size form.entry.pattern.now result }
{
    let size = form.size;
    let at = p.at;
    let left = file.len() - at;
    if size < 1 || left < 2 || left - 2 < size {
        return None;
    }
    let end = at + size;
    if file[end] != 13 || file[end + 1] != 10 {
        return None;
    }
    columned_line(family, &file[at..end], form, p, end + 2)
}

// An E, F or L line, by its first byte; any other is left to the check.
fn other_line(letter: u8, line: &[u8], p: Pace, next: usize) -> Option<Pace>
    ensures { OtherTold letter line.now p next result }
{
    let time = match letter {
        b'L' => {
            byte_shape::shaped(line, 1, 99, false).ok()?;
            p.clock
        }
        b'E' => line_check::event(line).ok()?,
        b'F' => line_check::satellites(line).ok()?,
        _ => return None,
    };
    check_clock::after_time(Some(time), p, next, p.counts)
}

// The line behind the pace's bytes, of a kind that has no columns.
fn take_other(file: &[u8], p: Pace) -> Option<Pace>
    requires { p.at < length file.now }
    ensures { OtherTaken file.now p result }
{
    let at = p.at;
    match file_lines::line_end(file, at) {
        Ended::At(end) if at < end => other_line(file[at], &file[at..end], p, end + 2),
        _ => None,
    }
}

// The line behind the pace's bytes, by its first one: the numbers after it where it is surely good, by the forms of B, K and N lines.
// None for a line that is refused, and for any line that is not B, K, N, E, F or L.
pub(crate) fn take_line(
    file: &[u8],
    p: Pace,
    fixes: Form<'_>,
    extras: Form<'_>,
    unsigned: Form<'_>,
) -> Option<Pace>
    ensures { LineTaken file.now p fixes.entry.size fixes.entry.pattern.now extras.entry.size extras.entry.pattern.now unsigned.entry.size unsigned.entry.pattern.now result }
{
    let at = p.at;
    if file.len() <= at {
        return None;
    }
    match file[at] {
        b'B' => take_columned(file, p, Family::B, fixes),
        b'K' => take_columned(file, p, Family::Extra(Extra::K), extras),
        b'N' => take_columned(file, p, Family::Extra(Extra::N), unsigned),
        _ => take_other(file, p),
    }
}
