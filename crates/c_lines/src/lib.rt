// The calls from C on a line that has no layout, the date line, E and F lines, a declaration's head and points; and on a position for the map.
#![tactic(auto)]

ghost use Rattle.c_lines.specs.Calls.{DateAnswered, EventAnswered, SatellitesAnswered, HeadAnswered, PointAnswered};

mod angles;
mod headers;
mod values;

pub use angles::degrees;
pub use headers::header;
pub use values::planned_date;

// The date of a file's second line.
pub fn date(line: &[u8], answer: &mut [u64]) -> u32
    ensures { DateAnswered line.now answer.old result answer.new }
{
    c_answers::give(answer, values::date(line_read::date(line)))
}

// The time of an E line.
pub fn event(line: &[u8], answer: &mut [u64]) -> u32
    ensures { EventAnswered line.now answer.old result answer.new }
{
    c_answers::give(answer, c_answers::time(line_read::event(line)))
}

// The time of an F line.
pub fn satellites(line: &[u8], answer: &mut [u64]) -> u32
    ensures { SatellitesAnswered line.now answer.old result answer.new }
{
    c_answers::give(answer, c_answers::time(line_read::satellites(line)))
}

// The head of a declaration.
pub fn head(line: &[u8], answer: &mut [u64]) -> u32
    ensures { HeadAnswered line.now answer.old result answer.new }
{
    c_answers::give(answer, values::head(line_read::head(line)))
}

// A point of a declaration.
pub fn point(line: &[u8], answer: &mut [u64]) -> u32
    ensures { PointAnswered line.now answer.old result answer.new }
{
    c_answers::give(answer, values::point(line_read::point(line)))
}
