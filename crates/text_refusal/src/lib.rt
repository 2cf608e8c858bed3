// The table of refusals, document 01's with the numbers of document 02: the number, the name and the meaning of each.
#![tactic(auto)]

ghost use Rattle.std.specs.Prelude.{◌≡◌};
ghost use Rattle.text_refusal.specs.Table.{NumberOf, NamePut, MeaningPut, name, meaning};

use rules::Reason;
use text_pieces::put_text;

// The number of a refusal, by the table.
#[tactic(auto, unfolding(rules::specs::Refusals::number))]
pub fn number(reason: Reason) -> u8
    ensures { NumberOf reason result }
{
    match reason {
        Reason::Empty => 1,
        Reason::TooLong => 2,
        Reason::LineEnd => 3,
        Reason::EmptyLine => 4,
        Reason::Kind => 5,
        Reason::Order => 6,
        Reason::Length => 7,
        Reason::Character => 8,
        Reason::Form => 9,
        Reason::Tile => 10,
        Reason::Twice => 11,
        Reason::Width => 12,
        Reason::Column => 13,
        Reason::Back => 14,
        Reason::TableFull => 15,
        Reason::EndsEarly => 16,
        Reason::BadValue => 17,
        Reason::NoRoom => 18,
        Reason::Absent => 19,
        Reason::NotNumber => 20,
        Reason::InputOver => 21,
        Reason::Time => 22,
        Reason::Position => 23,
        Reason::Altitude => 24,
        Reason::Date => 25,
        Reason::NotSame => 26,
        Reason::Shelf => 27,
        Reason::Id => 28,
        Reason::Entries => 29,
        Reason::NoRun => 30,
        Reason::NotFound => 31,
    }
}

// Its name.
#[tactic(auto, unfolding(crate::specs::Table::name, crate::specs::Table::names, crate::specs::Table::rows, rules::specs::Refusals::number, rules::specs::Choice::bytes))]
fn name(reason: Reason) -> &'static [u8]
    ensures { result.now ≡ name reason }
{
    match reason {
        Reason::Empty => b"EMPTY",
        Reason::TooLong => b"TOO_LONG",
        Reason::LineEnd => b"LINE_END",
        Reason::EmptyLine => b"EMPTY_LINE",
        Reason::Kind => b"KIND",
        Reason::Order => b"ORDER",
        Reason::Length => b"LENGTH",
        Reason::Character => b"CHARACTER",
        Reason::Form => b"FORM",
        Reason::Tile => b"TILE",
        Reason::Twice => b"TWICE",
        Reason::Width => b"WIDTH",
        Reason::Column => b"COLUMN",
        Reason::Back => b"BACK",
        Reason::TableFull => b"TABLE_FULL",
        Reason::EndsEarly => b"ENDS_EARLY",
        Reason::BadValue => b"BAD_VALUE",
        Reason::NoRoom => b"NO_ROOM",
        Reason::Absent => b"ABSENT",
        Reason::NotNumber => b"NOT_NUMBER",
        Reason::InputOver => b"INPUT_OVER",
        Reason::Time => b"TIME",
        Reason::Position => b"POSITION",
        Reason::Altitude => b"ALTITUDE",
        Reason::Date => b"DATE",
        Reason::NotSame => b"NOT_SAME",
        Reason::Shelf => b"SHELF",
        Reason::Id => b"ID",
        Reason::Entries => b"ENTRIES",
        Reason::NoRun => b"NO_RUN",
        Reason::NotFound => b"NOT_FOUND",
    }
}

// When it is given.
#[tactic(auto, unfolding(crate::specs::Table::meaning, crate::specs::Table::meanings, crate::specs::Table::rows, rules::specs::Refusals::number, rules::specs::Choice::bytes))]
fn meaning(reason: Reason) -> &'static [u8]
    ensures { result.now ≡ meaning reason }
{
    match reason {
        Reason::Empty => b"no bytes",
        Reason::TooLong => b"over the limit",
        Reason::LineEnd => b"first CR or LF is not CR LF, or none comes",
        Reason::EmptyLine => b"length 0",
        Reason::Kind => b"first byte not A to Z",
        Reason::Order => b"kind not allowed here",
        Reason::Length => b"outside its limits",
        Reason::Character => b"first invalid one",
        Reason::Form => b"first field against its rule",
        Reason::Tile => b"SS or FF wrong",
        Reason::Twice => b"code again",
        Reason::Width => b"listed code, wrong width",
        Reason::Column => b"listed column against its rule",
        Reason::Back => b"time falls",
        Reason::TableFull => b"good line, no entry left",
        Reason::EndsEarly =>
            b"end inside a declaration, before line 2, or in the strict check without G",
        Reason::BadValue => b"value, layout, line number or place given is not allowed",
        Reason::NoRoom => b"output shorter than place + length + 2",
        Reason::Absent => b"code (any 3 bytes) not in the layout",
        Reason::NotNumber => b"column is no such number",
        Reason::InputOver => b"program's input over 65,536 bytes",
        Reason::Time => b"time field against its rule",
        Reason::Position => b"latitude or longitude against its rule",
        Reason::Altitude => b"altitude against its rule",
        Reason::Date => b"date against its rule",
        Reason::NotSame => b"files differ before the end of the last G line",
        Reason::Shelf => b"buffer breaks the rules of a shelf",
        Reason::Id => b"flight number is 0 or in use",
        Reason::Entries => b"no entry is free",
        Reason::NoRun => b"no free run is long enough",
        Reason::NotFound => b"flight number is 0 or not held",
    }
}

// The name of a refusal, put into a buffer at a place of it: the place behind it.
pub fn put_name(out: &mut [u8], at: usize, reason: Reason) -> usize
    ensures { NamePut reason out.old at result out.new }
{
    put_text(out, at, name(reason))
}

// When a refusal is given, put into a buffer at a place of it: the place behind it.
pub fn put_meaning(out: &mut [u8], at: usize, reason: Reason) -> usize
    ensures { MeaningPut reason out.old at result out.new }
{
    put_text(out, at, meaning(reason))
}
