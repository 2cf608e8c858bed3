// The declaration of a whole file in one call: `declaration` checks the file, finds its head, the first C line, and puts six numbers of each of its points into a lent list.
#![tactic(auto)]

ghost use Rattle.std.specs.Prelude.{◌+◌, ◌*◌, ◌-◌, ◌≤◌, ◌<◌, ◌≡◌, length, drop};
ghost use Rattle.std.proofs.lemmas.List.Edits.{sets};
ghost use Rattle.rules.specs.Reads.{head_said, point_said};
ghost use Rattle.rules.specs.Refusals.{value_or};
ghost use Rattle.rules.specs.Split.{lines_of};
ghost use Rattle.declaration.specs.Declaration.{no_head, no_point, undeclared, declared_at, six_of, points_from, first_c, room_said, StartTold, FileDeclared};
ghost use Rattle.declaration.specs.Starts.{Found};

use file_lines::Ended;
use rules::{Date, Head, Point, Position, Reason, Refusal, Seal};

// What a declaration says: its head, how many points follow it, the number of the head's line, counted from 1, and the head's text: how many bytes of the file stand before it, and how many it has.
// All are zero where a file has no declaration.
#[derive(Clone, Copy)]
pub struct Declared {
    pub head: Head,
    pub points: usize,
    pub line: usize,
    pub text: usize,
    pub length: usize,
}

// Where a line stands: how many lines and how many bytes stand before it, and how many bytes stand before its CR LF.
#[derive(Clone, Copy)]
pub struct Start {
    pub lines: usize,
    pub at: usize,
    pub end: usize,
}

// A head of zeros.
fn no_head() -> Head
    ensures { result ≡ no_head }
{
    Head {
        declared: Date {
            day: 0,
            month: 0,
            year: 0,
        },
        time: 0,
        flight: None,
        task: 0,
        turns: 0,
    }
}

// What a head's line says; zeros where it is none.
fn head_of(line: &[u8]) -> Head
    ensures { result ≡ value_or no_head (head_said line.now) }
{
    line_read::head(line).unwrap_or(no_head())
}

// What a point's line says; zeros where it is none.
fn point_of(line: &[u8]) -> Point
    ensures { result ≡ value_or no_point (point_said line.now) }
{
    let nowhere = Position {
        count: 0,
        letter: 0,
    };
    line_read::point(line).unwrap_or(Point {
        lat: nowhere,
        lon: nowhere,
    })
}

// How many bytes of a line stand behind the first n.
fn behind(line: &[u8], n: usize) -> usize
    ensures { result ≡ length line.now - n }
{
    line.len().saturating_sub(n)
}

// A declaration, by its head's line and how many lines and bytes stand before it.
fn declared_at(line: &[u8], lines: usize, at: usize) -> Declared
    requires { (lines < 9223372036854775808) × (at < 9223372036854775808) }
    ensures { result ≡ declared_at lines at line.now }
{
    let head = head_of(line);
    let points = (head.turns as usize) + 4;
    let length = behind(line, 25);
    Declared {
        head,
        points,
        line: lines + 1,
        text: at + 25,
        length,
    }
}

// The first C line of a file.
fn find(file: &[u8]) -> Option<Start>
    ensures { Found file.now result }
{
    let mut lines = 0;
    let mut at = 0;
    // No `for`: the place jumps from line to line.
    while at < file.len() {
        let Ended::At(end) = file_lines::line_end(file, at) else {
            return None;
        };
        if byte_chars::byte(&file[at..end], 0) == b'C' {
            return Some(Start { lines, at, end });
        }
        lines += 1;
        at = end + 2;
    }
    None
}

// Six numbers put one after the other into a list.
fn put_six(list: &mut [u64], at: usize, six: [u64; 6])
    requires { at + 6 ≤ length list.old }
    ensures { list.new ≡ sets list.old at six }
{
    list[at..at + 6].copy_from_slice(&six);
}

// The six numbers of a point, by its line and how many bytes of the file stand before it: its position, and where its text stands.
fn put_point(line: &[u8], from: usize, list: &mut [u64], at: usize)
    requires { (from < 9223372036854775808) × (at + 6 ≤ length list.old) }
    ensures { list.new ≡ sets list.old at (six_of from line.now) }
{
    let p = point_of(line);
    let lat = p.lat;
    let lon = p.lon;
    let n_or_s = lat.letter as u64;
    let e_or_w = lon.letter as u64;
    let text = (from + 18) as u64;
    let length = behind(line, 18) as u64;
    put_six(
        list,
        at,
        [lat.count, n_or_s, lon.count, e_or_w, text, length],
    );
}

// The numbers of n points from the list's front on, by the lines from a place of the file on.
fn fill(file: &[u8], from: usize, n: usize, list: &mut [u64])
    requires { n * 6 ≤ length list.old }
    ensures { list.new ≡ sets list.old 0 (points_from n from (lines_of (drop from file.now))) }
{
    let mut at = from;
    for i in 0..n {
        let Ended::At(end) = file_lines::line_end(file, at) else {
            return;
        };
        put_point(&file[at..end], at, list, i * 6);
        at = end + 2;
    }
}

// The declaration of an accepted file: its points stored where the list has room for them, else 18.
fn store(file: &[u8], list: &mut [u64]) -> Result<Declared, Refusal>
    ensures { StartTold (room_said (first_c 0 0 (lines_of file.now)) (length list.old)) list.old result list.new }
{
    let Some(start) = find(file) else {
        return Ok(Declared {
            head: no_head(),
            points: 0,
            line: 0,
            text: 0,
            length: 0,
        });
    };
    let at = start.at;
    let end = start.end;
    let d = declared_at(&file[at..end], start.lines, at);
    let n = d.points;
    if list.len() / 6 < n {
        return Err(file_lines::unplaced(Reason::NoRoom));
    }
    fill(file, end + 2, n, list);
    Ok(d)
}

// The declaration of a file: what its head says, and six numbers of each of its points, from the list's front on, in the order of the lines: latitude, N or S, longitude, E or W, where its text starts in
// the file and how many bytes that text has. A file without C lines has none: then all is zero, and the list stays. Refused with the usual check's refusal (no table is lent, so 15 is not met), then with
// 18 where the list has fewer numbers than six for each point. No number is changed where refused, and numbers past the last point's stay.
pub fn declaration(file: &[u8], list: &mut [u64]) -> Result<Declared, Refusal>
    ensures { FileDeclared file.now list.old result list.new }
{
    check_file::check_untabled(Seal::Usual, file).outcome?;
    store(file, list)
}
