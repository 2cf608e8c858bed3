// A run of B and K lines, each held against the places of its layout, and taken by plain numbers.
ghost use Rattle.std.specs.Prelude.{◌+◌, ◌≤◌, ◌<◌, true, false, cond, ◌≡◌, length};
ghost use Rattle.rules.specs.Order.{passing, is_back};
ghost use Rattle.check_ahead.specs.Strides.{pace_by, KeptTo, FixKept, ExtraKept, LineTimed, Strode};

use check_clock::Pace;
use check_places::Places;
use rules::Counts;

// Whether each byte of a line with `size` bytes before its CR LF may stand at its place. As many places are looked at as suffice, of three numbers that the compiler knows.
fn is_kept(line: &[u8], places: &Places, size: usize) -> bool
    ensures { result ≡ true → KeptTo size places.now.low places.now.span places.now.other line.now }
{
    if size < 47 {
        return check_places::is_placed(
            line,
            &places.low[..48],
            &places.span[..48],
            &places.other[..48],
        );
    }
    if size < 63 {
        return check_places::is_placed(
            line,
            &places.low[..64],
            &places.span[..64],
            &places.other[..64],
        );
    }
    if 110 < size {
        return false;
    }
    check_places::is_placed(line, &places.low, &places.span, &places.other)
}

// The seconds of a B line whose bytes may stand at their places, with its longitude below 180 degrees; 86,400 for any other.
fn fix_time(line: &[u8], places: &Places, size: usize) -> u32
    ensures { result ≤ 86399 → FixKept size places.now.low places.now.span places.now.other line.now result }
{
    if !is_kept(line, places, size) {
        return 86400;
    }
    if !check_front::is_below(byte_chars::byte(line, 15), byte_chars::byte(line, 16)) {
        return 86400;
    }
    check_places::seconds(line)
}

// The seconds of a K line whose bytes may stand at their places; 86,400 for any other. A line with another first byte is told at once.
fn extra_time(line: &[u8], places: &Places, size: usize) -> u32
    ensures { result ≤ 86399 → ExtraKept size places.now.low places.now.span places.now.other line.now result }
{
    if byte_chars::byte(line, 0) != b'K' {
        return 86400;
    }
    if !is_kept(line, places, size) {
        return 86400;
    }
    check_places::seconds(line)
}

// The seconds of a B line, or of a K line.
fn line_time(
    fix: bool,
    line: &[u8],
    fix_places: &Places,
    b: usize,
    extra_places: &Places,
    k: usize,
) -> u32
    ensures { LineTimed fix line.now fix_places.now.low fix_places.now.span fix_places.now.other b extra_places.now.low extra_places.now.span extra_places.now.other k result }
{
    if fix {
        fix_time(line, fix_places, b)
    } else {
        extra_time(line, extra_places, k)
    }
}

// A time, or 86,400 where it falls from the one before it.
fn forth(before: u32, t: u32) -> u32
    ensures { result ≤ 86399 → (result ≡ t) × (is_back (passing before t) ≡ false) }
{
    if check_clock::is_back(before, t) {
        86400
    } else {
        t
    }
}

// The one number or the other.
fn width(fix: bool, b: usize, k: usize) -> usize
    ensures { result ≡ cond fix b k }
{
    if fix { b } else { k }
}

// One more, where one is to be added.
fn more_if(add: bool, n: u32) -> u32
    requires { n < 4294967295 }
    ensures { result ≡ cond add (n + 1) n }
{
    if add { n + 1 } else { n }
}

// A pace of plain numbers.
fn pace_by(at: usize, stage: u8, clock: u32, lines: u32, b: u32, k: u32, n: u32) -> Pace
    ensures { result ≡ pace_by at stage clock lines b k n }
{
    Pace {
        at,
        stage,
        clock,
        lines,
        counts: Counts { b, k, n },
    }
}

// The B and K lines from the pace on, as far as their bytes may stand at the places of their layouts, their times do not fall and the table has room.
pub(crate) fn run_placed(
    fix_places: &Places,
    extra_places: &Places,
    file: &[u8],
    lent: bool,
    table: &mut [u32],
    p: Pace,
    b: usize,
    k: usize,
) -> Pace
    requires { (length file.now ≤ 16777216) × (p.lines ≤ 33554432) × (p.at ≤ length file.now) }
    ensures { Strode lent file.now table.old fix_places.now.low fix_places.now.span fix_places.now.other b
        extra_places.now.low extra_places.now.span extra_places.now.other k p result table.new }
{
    let counts = p.counts;
    if !check_counts::are_few(counts) {
        return p;
    }
    let n = counts.n;
    let mut at = p.at;
    let mut stage = p.stage;
    let mut clock = p.clock;
    let mut lines = p.lines;
    let mut fixes = counts.b;
    let mut extras = counts.k;
    // No `for`: the place jumps from line to line.
    while at < file.len() {
        let fix = file[at] == b'B';
        let told = line_time(fix, &file[at..], fix_places, b, extra_places, k);
        let t = forth(clock, told);
        if 86399 < t {
            return pace_by(at, stage, clock, lines, fixes, extras, n);
        }
        if !check_table::put_entry(lent, table, lines, at as u32) {
            return pace_by(at, stage, clock, lines, fixes, extras, n);
        }
        at = at + width(fix, b, k) + 2;
        stage = line_order::IN_BODY;
        clock = t;
        lines += 1;
        fixes = more_if(fix, fixes);
        extras = more_if(!fix, extras);
    }
    pace_by(at, stage, clock, lines, fixes, extras, n)
}
