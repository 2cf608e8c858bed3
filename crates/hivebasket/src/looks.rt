// Lines read with their layouts, the look into their columns, and the layouts themselves.
ghost use Rattle.std.specs.Prelude.{◌∷◌, []};
ghost use Rattle.c_fixes.specs.Calls.{FixAnswered, ExtraAnswered};
ghost use Rattle.c_columns.specs.Calls.{LookAnswered, NumberAnswered, EntryAnswered, PresenceAnswered};
ghost use Rattle.c_columns.specs.Rows.{ListedAnswered};

// A B line read: its fix, and the entries of its columns.
#[unsafe(no_mangle)]
pub extern "C" fn hive_fix(
    line: &[u8],
    layout: &[u8],
    answer: &mut [u64],
    heights: &mut [i32],
    entries: &mut [u64],
) -> u32
    ensures { FixAnswered line.now layout.now answer.old heights.old entries.old result answer.new heights.new entries.new }
{
    c_fixes::fix(line, layout, answer, heights, entries)
}

// A K or an N line read: its time, and the entries of its columns.
#[unsafe(no_mangle)]
pub extern "C" fn hive_extra(
    line: &[u8],
    layout: &[u8],
    answer: &mut [u64],
    entries: &mut [u64],
) -> u32
    ensures { ExtraAnswered line.now layout.now answer.old entries.old result answer.new entries.new }
{
    c_fixes::extra(line, layout, answer, entries)
}

// The look for a code into the entries of a line that was read.
#[unsafe(no_mangle)]
pub extern "C" fn hive_look(
    line: &[u8],
    entries: &[u64],
    code0: u8,
    code1: u8,
    code2: u8,
    answer: &mut [u64],
) -> u32
    ensures { LookAnswered line.now entries.now (code0 ∷ code1 ∷ code2 ∷ []) answer.old result answer.new }
{
    c_columns::look(line, entries, code0, code1, code2, answer)
}

// That column as a whole number.
#[unsafe(no_mangle)]
pub extern "C" fn hive_look_number(
    line: &[u8],
    entries: &[u64],
    code0: u8,
    code1: u8,
    code2: u8,
    answer: &mut [u64],
    number: &mut [i64],
) -> u32
    ensures { NumberAnswered line.now entries.now (code0 ∷ code1 ∷ code2 ∷ []) answer.old number.old result answer.new number.new }
{
    c_columns::look_number(line, entries, code0, code1, code2, answer, number)
}

// Column n of an I, a J or an M line, counted from 1.
#[unsafe(no_mangle)]
pub extern "C" fn hive_column_at(layout: &[u8], n: usize, answer: &mut [u64]) -> u32
    ensures { EntryAnswered layout.now n answer.old result answer.new }
{
    c_columns::entry(layout, n, answer)
}

// Which listed codes an I line carries.
#[unsafe(no_mangle)]
pub extern "C" fn hive_presence(layout: &[u8], answer: &mut [u64]) -> u32
    ensures { PresenceAnswered layout.now answer.old result answer.new }
{
    c_columns::presence(layout, answer)
}

// Listed code n, counted from 0.
#[unsafe(no_mangle)]
pub extern "C" fn hive_listed(n: u32, answer: &mut [u64]) -> u32
    ensures { ListedAnswered n answer.old result answer.new }
{
    c_columns::listed(n, answer)
}
