// A line with columns that is surely good, told quickly: its time, or nothing where the line is refused or not sure to be good.
#![tactic(auto)]

ghost use Rattle.std.specs.Prelude.{true, ◌≡◌, drop};
ghost use Rattle.rules.specs.Families.{first_start};
ghost use Rattle.rules.specs.Choice.{byte, part};
ghost use Rattle.rules.specs.Lines.{fix_fields};
ghost use Rattle.byte_sweep.specs.Plain.{is_mild, every};
ghost use Rattle.check_sure.specs.Sure.{rule_of, keeps_as, keeps_pattern, below_time, time_of, fields_time, is_open, is_easy, clean_time, pattern_time, PatternGiven, SureTold};

use rules::{Family, FixFields, Layout, Refusal};

// What the column of a code must hold: 0 any text, 1 digits, 2 digits that may follow a minus.
#[tactic(auto, unfolding(crate::specs::Sure::rule_of))]
fn rule_of(code: u32) -> u8
    ensures { result ≡ rule_of code }
{
    if layout_codes::keeps_rule(code, b"A") {
        return 0;
    }
    if layout_codes::keeps_rule(code, b"-0") {
        return 2;
    }
    1
}

// The pattern of a layout: for each column its first and last byte and what it must hold, one after the other; zeros behind the last.
pub fn pattern(layout: Layout) -> [u8; 39]
    ensures { PatternGiven layout result }
{
    let n = layout.count;
    let mut p = [0u8; 39];
    for (i, e) in layout.entries.iter().enumerate() {
        if n <= i {
            return p;
        }
        let at = 3 * i;
        p[at] = e.first;
        p[at + 1] = e.last;
        p[at + 2] = rule_of(e.code);
    }
    p
}

// Whether the column of a line from its first to its last byte holds what it must. Any text will do where there is no rule, so that it is not looked at.
#[tactic(auto, unfolding(crate::specs::Sure::keeps_as))]
fn keeps(line: &[u8], first: u8, last: u8, rule: u8) -> bool
    ensures { result ≡ keeps_as rule (part (byte first) last line.now) }
{
    rule == 0 || byte_sweep::keeps_sign(rule == 2, layout_column::text_of(line, first, last))
}

// Whether every column of a line holds what the pattern says.
#[tactic(auto, using(crate::proofs::Laws::keep_turn, crate::proofs::Laws::keep_stop, crate::proofs::Laws::keep_end))]
fn keeps_pattern(line: &[u8], pattern: &[u8]) -> bool
    ensures { result ≡ keeps_pattern line.now pattern.now }
{
    for i in 0..pattern.len() / 3 {
        let at = 3 * i;
        if !keeps(line, pattern[at], pattern[at + 1], pattern[at + 2]) {
            return false;
        }
    }
    true
}

// Whether every byte is mild; most lines have plain bytes alone.
#[tactic(auto, using(crate::proofs::Laws::clean_plain))]
fn is_clean(line: &[u8]) -> bool
    ensures { result ≡ every is_mild line.now }
{
    byte_sweep::is_plain(line) || byte_sweep::is_mild_from(line, 0)
}

// The time of a fix with both coordinates below their limits.
#[tactic(auto, unfolding(crate::specs::Sure::below_time))]
fn below_time(f: FixFields) -> Option<u32>
    ensures { result ≡ below_time f }
{
    let at = line_fix::at_limit(f);
    if at.lat || at.lon {
        return None;
    }
    Some(f.time)
}

// The time of a B line whose fields before its columns keep their rules, with its position below the limits. Where its bytes tell that the other fields do, none of them is read.
#[tactic(auto, using(crate::proofs::Laws::quick_time, crate::proofs::Laws::time_is))]
fn fix_time(line: &[u8]) -> Option<u32>
    ensures { result ≡ time_of (fix_fields line.now) }
{
    if check_front::is_front(line) {
        return field_time::time_at(line, 1);
    }
    below_time(line_fix::fix_fields(line).ok()?)
}

// The time of a line whose fields before its columns keep their rules.
#[tactic(auto, unfolding(crate::specs::Sure::fields_time))]
fn fields_time(family: Family, line: &[u8]) -> Option<u32>
    ensures { result ≡ fields_time family line.now }
{
    match family {
        Family::B => fix_time(line),
        Family::Extra(_) => field_time::time_at(line, 1),
    }
}

// Whether the bytes between a line's time and its columns tell that the fields there keep their rules. A K or an N line has none there.
fn is_open(family: Family, line: &[u8]) -> bool
    ensures { result ≡ is_open family line.now }
{
    match family {
        Family::B => check_front::is_front(line),
        Family::Extra(_) => true,
    }
}

// The same, and the line's first byte is plain.
#[tactic(auto, unfolding(crate::specs::Sure::is_easy, byte_sweep::specs::Plain::is_plain))]
fn is_easy(family: Family, line: &[u8]) -> bool
    ensures { result ≡ is_easy family line.now }
{
    let first = byte_chars::byte(line, 0);
    45 <= first && first <= 91 && is_open(family, line)
}

// The offset of a family's first column.
fn columns_from(family: Family) -> usize
    ensures { result ≡ byte (first_start family) }
{
    match family {
        Family::B => 35,
        Family::Extra(_) => 7,
    }
}

// The time of a line with mild bytes alone whose fields keep their rules.
#[tactic(auto, unfolding(crate::specs::Sure::clean_time))]
fn clean_time(family: Family, line: &[u8]) -> Option<u32>
    ensures { result ≡ clean_time family line.now }
{
    if !is_clean(line) {
        return None;
    }
    fields_time(family, line)
}

// The same for a line whose columns are mild. Where its bytes tell that its other fields keep their rules, its time is all that is left to read: what is read as a time and
// what is within bounds is mild too.
#[tactic(auto, using(crate::proofs::Easy::easy_time))]
fn tail_time(family: Family, line: &[u8]) -> Option<u32>
    requires { every is_mild (drop (byte (first_start family)) line.now) ≡ true }
    ensures { result ≡ clean_time family line.now }
{
    if is_easy(family, line) {
        return field_time::time_at(line, 1);
    }
    clean_time(family, line)
}

// The same for a line whose columns are not all digits: they hold what the pattern says.
#[tactic(auto, using(crate::proofs::Easy::tail_not), unfolding(crate::specs::Sure::pattern_time))]
fn pattern_time(family: Family, line: &[u8], pattern: &[u8]) -> Option<u32>
    ensures { result ≡ pattern_time family line.now pattern.now }
{
    if !keeps_pattern(line, pattern) {
        return None;
    }
    if !byte_sweep::is_mild_from(line, columns_from(family)) {
        return None;
    }
    tail_time(family, line)
}

// The time of a line of this many bytes, all mild, whose fields keep their rules, with a position below the limits, and whose columns are digits alone or hold what the pattern
// says. None for any other line.
#[tactic(auto, using(crate::proofs::Easy::digits_are_mild, crate::proofs::Easy::by_digits, crate::proofs::Easy::by_pattern), unfolding(crate::specs::Sure::sure_time))]
pub fn sure_line(family: Family, line: &[u8], size: usize, pattern: &[u8]) -> Option<u32>
    ensures { SureTold family line.now size pattern.now result }
{
    if line.len() != size {
        return None;
    }
    if byte_sweep::is_digits_from(line, columns_from(family)) {
        return tail_time(family, line);
    }
    pattern_time(family, line, pattern)
}
