// The look into the entries of a reading that are lent as numbers, for C: a column by its code, as the places of its bytes and as a number. It takes any line and any
// numbers; `c_seek` reads them where they stand, and no layout is made of them.
#![tactic(auto)]

ghost use Rattle.c_look.specs.Looks.{LookBy, LookNumberBy};

use rules::{Reason, Refusal, Signed, Span};

// Where the column of a code, any three bytes, stands: its first and last byte, counted from 1. BAD_VALUE for numbers that are not 40, for over 13 entries, a number past
// what an entry holds, a code twice, or an entry that is not inside the line or ends before it starts; then ABSENT.
pub fn column(line: &[u8], list: &[u64], code: [u8; 3]) -> Result<Span, Refusal>
    ensures { LookBy line.now list.now code result }
{
    let x = layout_codes::pack(code[0], code[1], code[2]);
    c_seek::column(line.len(), list, x as u64)
}

// That column as a whole number. What `column` refuses, then NOT_NUMBER.
pub fn number(line: &[u8], list: &[u64], code: [u8; 3]) -> Result<Signed, Refusal>
    ensures { LookNumberBy line.now list.now code result }
{
    let Span { first, last } = column(line, list, code)?;
    let Some(z) = byte_number::whole(layout_column::text_of(line, first, last)) else {
        return Err(Refusal {
            reason: Reason::NotNumber,
            line: 0,
            byte: 0,
        });
    };
    Ok(z)
}
