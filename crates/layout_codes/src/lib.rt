// The listed codes: their table, and what it says of a column's width and text.
#![tactic(auto)]

ghost use Rattle.std.specs.Prelude.{◌≡◌};
ghost use Rattle.rules.specs.Listed.{is_past};
ghost use Rattle.rules.specs.Promises.{ListedAt, ColumnTest};
ghost use Rattle.layout_codes.specs.Parts.{in_row, is_topped, CodePacked, ListedFound, WidthTest, LimitTest};

use rules::{AtLimit, Listed};

// A row of the table: code, least width, most width, and whether a minus may come first.
#[derive(Clone, Copy)]
pub struct Row(pub [u8; 3], pub u8, pub u8, pub bool);

const TABLE: [Row; 15] = [
    Row(*b"FXA", 3, 3, false),
    Row(*b"SIU", 2, 2, false),
    Row(*b"ENL", 3, 3, false),
    Row(*b"MOP", 3, 3, false),
    Row(*b"IAS", 3, 3, false),
    Row(*b"FLP", 3, 3, true),
    Row(*b"HDM", 3, 6, false),
    Row(*b"HDT", 3, 6, false),
    Row(*b"TRM", 3, 6, false),
    Row(*b"TRT", 3, 6, false),
    Row(*b"TDS", 1, 3, false),
    Row(*b"LAD", 1, 4, false),
    Row(*b"LOD", 1, 4, false),
    Row(*b"DAE", 2, 6, true),
    Row(*b"DAN", 2, 6, true),
];

// The three characters of a code as one number.
pub fn pack(a: u8, b: u8, c: u8) -> u32
    ensures { CodePacked a b c result }
{
    (a as u32) * 65536 + (b as u32) * 256 + (c as u32)
}

// What a row of the table says.
fn listed_in(row: Row) -> Listed
    ensures { result ≡ in_row row }
{
    let code = row.0;
    Listed {
        code: pack(code[0], code[1], code[2]),
        least: row.1 as usize,
        most: row.2 as usize,
        sign: row.3,
    }
}

// The listed code of the number n; past the table a row of zeros.
pub fn listed_at(n: usize) -> Listed
    ensures { ListedAt n result }
{
    if n < 15 {
        let row = TABLE[n];
        listed_in(row)
    } else {
        Listed {
            code: 0,
            least: 0,
            most: 0,
            sign: false,
        }
    }
}

// A code's number in the table; Nothing where it is not listed.
pub fn listed_number(code: u32) -> Option<usize>
    ensures { ListedFound code result }
{
    let table = TABLE;
    for (i, row) in table.iter().enumerate() {
        let listed = listed_in(*row);
        if listed.code == code {
            return Some(i);
        }
    }
    None
}

// Whether a column of this code may have this width.
pub fn width_fits(code: u32, width: usize) -> bool
    ensures { WidthTest code width result }
{
    let Some(n) = listed_number(code) else {
        return true;
    };
    let row = listed_at(n);
    row.least <= width && width <= row.most
}

// Whether the text of a column keeps the rule of its code: digits, perhaps after a minus, where the code is listed; any text where it is not.
pub fn keeps_rule(code: u32, text: &[u8]) -> bool
    ensures { ColumnTest code text.now result }
{
    let Some(n) = listed_number(code) else {
        return true;
    };
    let row = listed_at(n);
    byte_sweep::keeps_sign(row.sign, text)
}

// Whether a column of this code makes a coordinate finer that stands at its limit.
#[tactic(auto, unfolding(rules::specs::Choice::bytes))]
fn is_topped(at: AtLimit, code: u32) -> bool
    ensures { result ≡ is_topped at code }
{
    (at.lat && code == pack(b'L', b'A', b'D')) || (at.lon && code == pack(b'L', b'O', b'D'))
}

// Whether the digits of a column take a coordinate past its limit.
#[tactic(auto, using(crate::proofs::Laws::past_by))]
fn is_past(at: AtLimit, code: u32, text: &[u8]) -> bool
    ensures { result ≡ is_past at code text.now }
{
    is_topped(at, code) && !byte_sweep::is_zeros(text)
}

// Whether the text of a column keeps the rule of its code in a line that has these coordinates at their limits: there LAD or LOD are zeros.
#[tactic(auto, unfolding(rules::specs::Listed::keeps_limit))]
pub fn keeps_limit(at: AtLimit, code: u32, text: &[u8]) -> bool
    ensures { LimitTest at code text.now result }
{
    !is_past(at, code, text) && keeps_rule(code, text)
}
