// What every crate shares: the values read from an IGC file, and the answers given. No function stands here; specs/ says what is right.
#![tactic(auto)]

// Why something is refused, by the names of document 01's table of refusal numbers and of document 02's requests.
#[derive(Clone, Copy)]
pub enum Reason {
    Empty,
    TooLong,
    LineEnd,
    EmptyLine,
    Kind,
    Order,
    Length,
    Character,
    Form,
    Tile,
    Twice,
    Width,
    Column,
    Back,
    TableFull,
    EndsEarly,
    BadValue,
    NoRoom,
    Absent,
    NotNumber,
    InputOver,
    Time,
    Position,
    Altitude,
    Date,
    NotSame,
    Shelf,
    Id,
    Entries,
    NoRun,
    NotFound,
}

// The classes of fields, by which a field that breaks its rule is refused.
#[derive(Clone, Copy)]
pub enum Class {
    Time,
    Position,
    Altitude,
    Date,
    Other,
}

// A refusal: why, in which line, at which byte of it. Lines and bytes count from 1; 0 stands for none.
#[derive(Clone, Copy)]
pub struct Refusal {
    pub reason: Reason,
    pub line: u32,
    pub byte: u32,
}

// A whole number with its sign.
#[derive(Clone, Copy)]
pub struct Signed {
    pub value: i64,
}

#[derive(Clone, Copy)]
pub struct Date {
    pub day: u8,
    pub month: u8,
    pub year: u16,
}

// A latitude or a longitude: a count of thousandths of a minute, with its letter beside it.
#[repr(C)]
#[derive(Clone, Copy)]
pub struct Position {
    pub count: u64,
    pub letter: u8,
}

// An altitude.
#[repr(C)]
#[derive(Clone, Copy)]
pub struct Height {
    pub metres: i32,
}

// A position for the map.
#[derive(Clone, Copy)]
pub struct Degrees {
    pub lat: f64,
    pub lon: f64,
}

// A listed code: its three characters as one number, the least and the most width of its column, and whether the column may begin with a minus.
#[derive(Clone, Copy)]
pub struct Listed {
    pub code: u32,
    pub least: usize,
    pub most: usize,
    pub sign: bool,
}

// A column: the places of its first and last byte in the line, counted from 1, and its code's three characters as one number.
#[derive(Clone, Copy)]
pub struct Entry {
    pub first: u8,
    pub last: u8,
    pub code: u32,
}

// The columns that an I, a J or an M line tells: the first `count` entries; the others are all zero.
#[derive(Clone, Copy)]
pub struct Layout {
    pub count: usize,
    pub entries: [Entry; 13],
}

// The lines whose fields before the columns are a time alone: K lines, and N lines, which are built as they are.
#[derive(Clone, Copy)]
pub enum Extra {
    K,
    N,
}

// The lines that a layout is for: B lines with their I line's, K lines with their J line's, N lines with their M line's.
#[derive(Clone, Copy)]
pub enum Family {
    B,
    Extra(Extra),
}

// Which listed codes a layout carries: bit n of the word for the number n, and how many there are.
#[derive(Clone, Copy)]
pub struct Presence {
    pub word: u32,
    pub count: u32,
}

// The places of the first and last byte of a column in its line, counted from 1.
#[derive(Clone, Copy)]
pub struct Span {
    pub first: u8,
    pub last: u8,
}

// What the bytes of a B line before its columns spell, position and time as plain counts.
#[derive(Clone, Copy)]
pub struct FixFields {
    pub time: u32,
    pub lat: Position,
    pub lon: Position,
    pub validity: u8,
    pub pressure: Height,
    pub gnss: Height,
}

// Which coordinates of a B line stand at their limit, 90 or 180 degrees: there finer digits can only be zeros.
#[derive(Clone, Copy)]
pub struct AtLimit {
    pub lat: bool,
    pub lon: bool,
}

// Where a column of finer digits stands: the places of its first and last byte, counted from 1; 0 and 0 where there is no such column.
#[derive(Clone, Copy)]
pub struct Reach {
    pub first: u8,
    pub last: u8,
}

// The columns of finer digits of a B line: TDS for its time, LAD for its latitude, LOD for its longitude.
#[derive(Clone, Copy)]
pub struct Finer {
    pub time: Reach,
    pub lat: Reach,
    pub lon: Reach,
}

// The time of a fix: a count of seconds of the day, taken ten times for each of its extra decimals.
#[repr(C)]
#[derive(Clone, Copy)]
pub struct FineTime {
    pub count: u32,
    pub decimals: u8,
}

// The latitude or the longitude of a fix: a count of thousandths of a minute, taken ten times for each of its extra decimals, with its letter beside it.
#[repr(C)]
#[derive(Clone, Copy)]
pub struct FinePosition {
    pub count: u64,
    pub letter: u8,
    pub decimals: u8,
}

// What the reading of a B line gives before its columns.
#[repr(C)]
#[derive(Clone, Copy)]
pub struct Fix {
    pub time: FineTime,
    pub lat: FinePosition,
    pub lon: FinePosition,
    pub validity: u8,
    pub pressure: Height,
    pub gnss: Height,
}

// A B line read: its fix, and the entries of its columns in layout order.
#[derive(Clone, Copy)]
pub struct FixReading {
    pub fix: Fix,
    pub entries: Layout,
}

// A K or an N line read: its time, and the entries of its columns in layout order.
#[derive(Clone, Copy)]
pub struct ExtraReading {
    pub time: u32,
    pub entries: Layout,
}

// What the first line of a declaration says before its text.
#[derive(Clone, Copy)]
pub struct Head {
    pub declared: Date,
    pub time: u32,
    pub flight: Option<Date>,
    pub task: u16,
    pub turns: u8,
}

// What a point line of a declaration says before its text.
#[derive(Clone, Copy)]
pub struct Point {
    pub lat: Position,
    pub lon: Position,
}

// A line's kind, told by its first byte. Other: O to Z. NoKind: no byte from A to Z.
#[derive(Clone, Copy)]
pub enum Kind {
    A,
    B,
    C,
    D,
    E,
    F,
    G,
    H,
    I,
    J,
    K,
    L,
    M,
    N,
    Other,
    NoKind,
}

// What a kind of line does in a file: the A line opens it, H lines head it, I, J and M lines tell a layout, B, K and N lines have columns, C lines
// declare a task. No role: no byte from A to Z.
#[derive(Clone, Copy)]
pub enum Role {
    Opens,
    Heads,
    Tells(Family),
    Columned(Family),
    Declares,
    Event,
    Satellites,
    Differential,
    Seals,
    Remark,
    Other,
    NoRole,
}

// What a file must have at its end, by the check that it is put through. Usual: its first two lines, with a G line or without one. Strict: a G line.
#[derive(Clone, Copy)]
pub enum Seal {
    Usual,
    Strict,
}

// A layout for the lines of each family.
#[derive(Clone, Copy)]
pub struct Layouts {
    pub b: Layout,
    pub k: Layout,
    pub n: Layout,
}

// How many lines of each family there are.
#[derive(Clone, Copy)]
pub struct Counts {
    pub b: u32,
    pub k: u32,
    pub n: u32,
}

// What an accepted file says: its date, the layouts of its families, how many lines it has, how many of each family, and whether it is signed: it has a G line.
#[derive(Clone, Copy)]
pub struct Flight {
    pub date: Date,
    pub layouts: Layouts,
    pub lines: u32,
    pub counts: Counts,
    pub signed: bool,
}

// What the lines so far have left: the part of the file that they reached, whether a declaration was begun, how many of its points are
// still to come, the last time, and what the file says so far.
#[derive(Clone, Copy)]
pub struct State {
    pub stage: u8,
    pub declared: bool,
    pub points: u32,
    pub clock: u32,
    pub flight: Flight,
}

// A whole file checked: what it says, or all zero and not signed beside a refusal.
#[derive(Clone, Copy)]
pub struct Checked {
    pub outcome: Result<(), Refusal>,
    pub flight: Flight,
}

// A line of the file: how many bytes stand before it and before its CR LF.
#[derive(Clone, Copy)]
pub struct Bounds {
    pub from: usize,
    pub to: usize,
}
