// The calls from C on a B, a K or an N line: its value and the entries of its columns, with the layout given as the text of its own line.
#![tactic(auto)]

ghost use Rattle.rules.specs.Reads.{answered, fix_reading_told, extra_reading_told};
ghost use Rattle.rules.specs.Refusals.{result_told};
ghost use Rattle.std.specs.Prelude.{◌∷◌, [], ◌≡◌, length};
ghost use Rattle.c_answers.specs.Answers.{accepting, in_numbers};
ghost use Rattle.c_fixes.specs.Calls.{fix_numbers, heights_of, FixAnswered, ExtraAnswered};

use c_answers::{Numbers, SIZE, accepted, refused};
use c_entries::ENTRIES;
use rules::{ExtraReading, Fix, FixReading, Height, Layout, Refusal};

// Two altitudes, in metres.
fn put_two(heights: &mut [i32], a: Height, b: Height)
    requires { length heights.old ≡ 2 }
    ensures { heights.new ≡ a.metres ∷ b.metres ∷ [] }
{
    let pressure = a.metres;
    let gnss = b.metres;
    heights[0] = pressure;
    heights[1] = gnss;
}

// The altitudes of a fix, or 0 and 0.
fn put_heights(heights: &mut [i32], read: Result<Fix, Refusal>)
    requires { length heights.old ≡ 2 }
    ensures { heights.new ≡ heights_of (result_told read) }
{
    match read {
        Ok(f) => put_two(heights, f.pressure, f.gnss),
        Err(_) => put_two(heights, Height { metres: 0 }, Height { metres: 0 }),
    }
}

// What a B line says before its columns, without the altitudes.
fn fix_values(f: Fix) -> Numbers
    ensures { result ≡ accepting (fix_numbers f) }
{
    accepted(&[
        f.time.count as u64,
        f.time.decimals as u64,
        f.lat.count,
        f.lat.letter as u64,
        f.lat.decimals as u64,
        f.lon.count,
        f.lon.letter as u64,
        f.lon.decimals as u64,
        f.validity as u64,
    ])
}

fn numbers(read: Result<Fix, Refusal>) -> Numbers
    ensures { result ≡ in_numbers fix_numbers (result_told read) }
{
    match read {
        Ok(f) => fix_values(f),
        Err(why) => refused(why),
    }
}

// The fix of a reading.
fn fix_in(read: Result<FixReading, Refusal>) -> Result<Fix, Refusal>
    ensures { result_told result ≡ (answered (fix_reading_told read)).value }
{
    let r = read?;
    Ok(r.fix)
}

// The time of a reading.
fn time_in(read: Result<ExtraReading, Refusal>) -> Result<u32, Refusal>
    ensures { result_told result ≡ (answered (extra_reading_told read)).value }
{
    let r = read?;
    Ok(r.time)
}

// The entries of a B line's columns; none where it is refused.
fn columns_of_fix(read: Result<FixReading, Refusal>) -> Layout
    ensures { result ≡ (answered (fix_reading_told read)).entries }
{
    match read {
        Ok(r) => r.entries,
        Err(_) => rules_values::empty_layout(),
    }
}

// The entries of a K or an N line's columns; none where it is refused.
fn columns_of_extra(read: Result<ExtraReading, Refusal>) -> Layout
    ensures { result ≡ (answered (extra_reading_told read)).entries }
{
    match read {
        Ok(r) => r.entries,
        Err(_) => rules_values::empty_layout(),
    }
}

// A B line read: its fix, its altitudes, and the entries of its columns. 17 where something that is lent has not its length.
pub fn fix(
    line: &[u8],
    layout: &[u8],
    answer: &mut [u64],
    heights: &mut [i32],
    entries: &mut [u64],
) -> u32
    ensures { FixAnswered line.now layout.now answer.old heights.old entries.old result answer.new heights.new entries.new }
{
    if answer.len() != SIZE {
        return 17;
    }
    if heights.len() != 2 {
        return 17;
    }
    if entries.len() != ENTRIES {
        return 17;
    }
    let read = c_given::fix(line, layout);
    let value = fix_in(read);
    put_heights(heights, value);
    c_entries::put(entries, columns_of_fix(read));
    c_answers::give(answer, numbers(value))
}

// A K or an N line read: its time, and the entries of its columns. 17 where something that is lent has not its length.
pub fn extra(line: &[u8], layout: &[u8], answer: &mut [u64], entries: &mut [u64]) -> u32
    ensures { ExtraAnswered line.now layout.now answer.old entries.old result answer.new entries.new }
{
    if answer.len() != SIZE {
        return 17;
    }
    if entries.len() != ENTRIES {
        return 17;
    }
    let read = c_given::extra(line, layout);
    c_entries::put(entries, columns_of_extra(read));
    c_answers::give(answer, c_answers::time(time_in(read)))
}
