// The fixes of a file one after the other: lines are passed with their times, and the B line that is reached is read.
#![tactic(auto)]

mod swift;

ghost use Rattle.std.specs.Prelude.{ℕ, ◌<◌, ◌≤◌, ◌+◌, true, false, List, ◌≡◌, leb, length, drop};
ghost use Rattle.rules.specs.Fields.{time_at};
ghost use Rattle.rules.specs.Lines.{fix_fields};
ghost use Rattle.rules.specs.Order.{passing};
ghost use Rattle.rules.specs.Roles.{is_timed};
ghost use Rattle.rules.specs.Split.{lines_of};
ghost use Rattle.rules.specs.Walk.{time_on, day_after};
ghost use Rattle.line_finer.specs.Within.{fix_within};
ghost use Rattle.check_front.specs.Front.{is_front};
ghost use Rattle.track_rules.specs.Track.{record_of};
ghost use Rattle.track_step.specs.Steps.{walk_of, behind, skipped, is_few, Few, Spare, NoFiner, Limited, AtFix, FrontTimed, SwiftTimed, no_fix, passed_by, passed_as, read_at, FixStepped};

use file_lines::Ended;
use rules::{FinePosition, FineTime, Finer, Fix, FixFields, Height, Refusal, Role};
use track_rules::{FixStep, Progress, Record};

// Whether a line of this role runs in time order.
fn is_timed(r: Role) -> bool
    ensures { result ≡ is_timed r }
{
    matches!(r, Role::Columned(_) | Role::Event | Role::Satellites)
}

// The time of a line, where its kind runs in time order.
fn time_on(line: &[u8]) -> Option<u32>
    ensures { result ≡ time_on line.now }
{
    let role = line_order::role_of(line_kind::kind_of(byte_chars::byte(line, 0)));
    if !is_timed(role) {
        return None;
    }
    field_time::time_at(line, 1)
}

// The day of a time, by the time before it and that one's day.
fn day_after(before: u32, now: u32, day: u32) -> u32
    requires { day < 4294967295 }
    ensures { result ≡ day_after (passing before «now») day }
{
    if before <= now {
        return day;
    }
    if 43200 < before - now {
        return day + 1;
    }
    day
}

// Behind a line with this time, or with none, the next one standing behind `next` bytes.
fn behind(time: Option<u32>, p: Progress, next: usize) -> Progress
    requires { Spare p }
    ensures { result ≡ behind (time) p next }
{
    let size = p.size;
    let finer = p.finer;
    let lines = p.lines + 1;
    match time {
        None => Progress {
            at: next,
            lines,
            clock: p.clock,
            day: p.day,
            size,
            finer,
        },
        Some(t) => Progress {
            at: next,
            lines,
            clock: t,
            day: day_after(p.clock, t, p.day),
            size,
            finer,
        },
    }
}

// Past the lines that are no B lines, as far as CR LF ends them.
fn skip(file: &[u8], from: Progress) -> Progress
    requires { Few (length file.now) from }
    ensures { (result ≡ skipped (lines_of (drop from.at file.now)) from) × Spare result }
{
    let mut p = from;
    // No `for`: the place jumps from line to line.
    while p.at < file.len() {
        let at = p.at;
        if file[at] == b'B' {
            return p;
        }
        let Ended::At(end) = file_lines::line_end(file, at) else {
            return p;
        };
        let time = time_on(&file[at..end]);
        p = behind(time, p, end + 2);
    }
    p
}

// No fix: all zero, and the progress as it is.
fn no_fix(p: Progress) -> FixStep
    ensures { result ≡ no_fix p }
{
    let time = FineTime {
        count: 0,
        decimals: 0,
    };
    let lat = FinePosition {
        count: 0,
        letter: 0,
        decimals: 0,
    };
    let lon = FinePosition {
        count: 0,
        letter: 0,
        decimals: 0,
    };
    let pressure = Height { metres: 0 };
    let gnss = Height { metres: 0 };
    let fix = Fix {
        time,
        lat,
        lon,
        validity: 0,
        pressure,
        gnss,
    };
    FixStep {
        found: Record {
            line: 0,
            day: 0,
            fix,
        },
        next: p,
    }
}

// The record of the fix that was passed last.
fn record_of(p: Progress, fix: Fix) -> Record
    ensures { result ≡ record_of (walk_of p) fix }
{
    Record {
        line: p.lines,
        day: p.day,
        fix,
    }
}

// A B line with these fields passed: its record, with its finer digits, and the progress behind it. Its plain time moves the clock and the day.
fn passed(line: &[u8], p: Progress, f: FixFields, after: usize) -> FixStep
    requires { Spare p }
    ensures { result ≡ passed_by line.now p after f }
{
    let fix = line_finer::fix_of(line, p.finer, f);
    let next = behind(Some(f.time), p, after);
    FixStep {
        found: record_of(next, fix),
        next,
    }
}

// Whether a B line has a column of finer digits.
fn has_finer(fine: Finer) -> bool
    ensures { result ≡ false → NoFiner fine }
{
    let time = fine.time;
    let lat = fine.lat;
    let lon = fine.lon;
    (time.first != 0) | (lat.first != 0) | (lon.first != 0)
}

// The fix of these fields without finer digits.
fn plain_fix(fine: Finer, f: FixFields) -> Fix
    requires { NoFiner fine × Limited f }
    ensures { (l : List ℕ) → result ≡ fix_within l fine f }
{
    let lat = f.lat;
    let lon = f.lon;
    let pressure = f.pressure;
    let gnss = f.gnss;
    let time = FineTime {
        count: f.time,
        decimals: 0,
    };
    let north = FinePosition {
        count: lat.count,
        letter: lat.letter,
        decimals: 0,
    };
    let east = FinePosition {
        count: lon.count,
        letter: lon.letter,
        decimals: 0,
    };
    Fix {
        time,
        lat: north,
        lon: east,
        validity: f.validity,
        pressure,
        gnss,
    }
}

// A B line with these fields and no finer digits passed.
fn passed_plain(p: Progress, f: FixFields, after: usize) -> FixStep
    requires { Spare p × NoFiner p.finer × Limited f }
    ensures { (l : List ℕ) → result ≡ passed_by l p after f }
{
    let fix = plain_fix(p.finer, f);
    let behind_it = behind(Some(f.time), p, after);
    FixStep {
        found: record_of(behind_it, fix),
        next: behind_it,
    }
}

// A B line whose front is good, read with no test but that of its time.
fn read_swift(line: &[u8], p: Progress, time: u32, after: usize) -> FixStep
    requires { Spare p × (is_front line.now ≡ true) × (time_at line.now 1 ≡ Some time) }
    ensures { result ≡ passed_as line.now p after (fix_fields line.now) }
{
    let f = swift::fields_of(line, time);
    if has_finer(p.finer) {
        return passed(line, p, f, after);
    }
    passed_plain(p, f, after)
}

// A B line read by its fields, each of them tested.
fn read_slowly(line: &[u8], p: Progress, after: usize) -> FixStep
    requires { Spare p }
    ensures { result ≡ passed_as line.now p after (fix_fields line.now) }
{
    let Ok(f) = line_fix::fix_fields(line) else {
        return no_fix(p);
    };
    passed(line, p, f, after)
}

// A B line read by its fields, and the progress behind it; no fix where a field breaks its rule.
fn read_line(line: &[u8], p: Progress, after: usize) -> FixStep
    requires { Spare p }
    ensures { result ≡ passed_as line.now p after (fix_fields line.now) }
{
    if check_front::is_front(line) {
        if let Some(time) = field_time::time_at(line, 1) {
            return read_swift(line, p, time, after);
        }
    }
    read_slowly(line, p, after)
}

// Whether a file of so many bytes has a line of `size` bytes and its CR LF at a place.
fn has_line(len: usize, at: usize, size: usize) -> bool
    ensures { result ≡ leb (at + size + 2) len }
{
    2 <= len && at <= len - 2 && size <= len - 2 - at
}

// The B line at the place read by its fields, and the progress behind it. Its size is taken on trust, and whether CR LF stands behind it is not tested. No fix where the file has
// not that many bytes and two more, another byte than B stands at the place, or a field breaks its rule.
fn read_at(file: &[u8], p: Progress) -> FixStep
    requires { Spare p }
    ensures { result ≡ read_at file.now p }
{
    let at = p.at;
    let size = p.size;
    if !has_line(file.len(), at, size) || file[at] != b'B' {
        return no_fix(p);
    }
    let end = at + size;
    read_line(&file[at..end], p, end + 2)
}

// Whether a file has at most 16,777,216 bytes, and the lines passed and the day are no more than that.
#[tactic(auto, unfolding(crate::specs::Steps::is_few))]
fn is_few(len: usize, p: Progress) -> bool
    ensures { result ≡ is_few len p }
{
    len <= 16777216 && p.lines <= 16777216 && p.day <= 16777216
}

// The next fix of a file: lines that are no B lines are passed with their times, then the B line is read by its fields, as the lines of an accepted file may be: its size is taken
// on trust, and whether CR LF stands behind it is not tested. All zero where none is read: the file ends before, a line that is no B line has no CR LF, fewer bytes are left than
// the size and two more, or a field of the B line breaks its rule; `next` is then behind the lines passed. All zero too for a file of over 16,777,216 bytes, and for a progress
// with more lines or days than that; `next` is then `from` itself.
pub fn step(file: &[u8], from: Progress) -> FixStep
    ensures { FixStepped file.now from result }
{
    if !is_few(file.len(), from) {
        return no_fix(from);
    }
    let p = skip(file, from);
    read_at(file, p)
}

// Whether a B line without columns of finer digits stands just at the place, and the numbers are few.
fn is_at_fix(file: &[u8], p: Progress) -> bool
    ensures { result ≡ true → AtFix file.now p }
{
    let at = p.at;
    is_few(file.len(), p)
        && has_line(file.len(), at, p.size)
        && file[at] == b'B'
        && !has_finer(p.finer)
}

// The time of a line whose front is good; none for any other.
fn front_time(line: &[u8]) -> Option<u32>
    ensures { FrontTimed line.now result }
{
    if !check_front::is_front(line) {
        return None;
    }
    field_time::time_at(line, 1)
}

// The time of the B line at the place, where it can be read with no test.
fn swift_time(file: &[u8], p: Progress) -> Option<u32>
    ensures { SwiftTimed file.now p result }
{
    if !is_at_fix(file, p) {
        return None;
    }
    let at = p.at;
    let size = p.size;
    let end = at + size;
    front_time(&file[at..end])
}

// A B line whose front is good and that has no finer digits, read with no test.
fn stride_by(line: &[u8], p: Progress, time: u32, after: usize) -> FixStep
    requires { Spare p × NoFiner p.finer × (is_front line.now ≡ true) × (time_at line.now 1 ≡ Some time) }
    ensures { result ≡ passed_as line.now p after (fix_fields line.now) }
{
    passed_plain(p, swift::fields_of(line, time), after)
}

// A step, its numbers one by one: so the compiler stores them where they belong, and copies no bytes that it has just written.
fn anew(s: FixStep) -> FixStep
    ensures { result ≡ s }
{
    let found = s.found;
    let next = s.next;
    let fix = found.fix;
    let of_time = fix.time;
    let of_lat = fix.lat;
    let of_lon = fix.lon;
    let pressure = fix.pressure;
    let gnss = fix.gnss;
    let finer = next.finer;
    let time = FineTime {
        count: of_time.count,
        decimals: of_time.decimals,
    };
    let lat = FinePosition {
        count: of_lat.count,
        letter: of_lat.letter,
        decimals: of_lat.decimals,
    };
    let lon = FinePosition {
        count: of_lon.count,
        letter: of_lon.letter,
        decimals: of_lon.decimals,
    };
    let again = Fix {
        time,
        lat,
        lon,
        validity: fix.validity,
        pressure,
        gnss,
    };
    FixStep {
        found: Record {
            line: found.line,
            day: found.day,
            fix: again,
        },
        next: Progress {
            at: next.at,
            lines: next.lines,
            clock: next.clock,
            day: next.day,
            size: next.size,
            finer,
        },
    }
}

// The next fix as `step` gives it. A B line that stands just at the place is read with no more tests than are needed; for a caller that stores what was found, so that it has its own
// copy of this.
pub fn stride(file: &[u8], from: Progress) -> FixStep
    ensures { FixStepped file.now from result }
{
    let Some(time) = swift_time(file, from) else {
        return anew(step(file, from));
    };
    let at = from.at;
    let size = from.size;
    let end = at + size;
    stride_by(&file[at..end], from, time, end + 2)
}
