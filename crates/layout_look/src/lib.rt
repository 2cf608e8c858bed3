// The look into the answer of a merged reading: a column by its code, as the places of its bytes, as text and as a number. It takes any line and any entries, and
// does not check the line again.
#![tactic(auto)]

ghost use Rattle.rules.specs.Promises.{LookGiven, LookTextGiven, LookNumberGiven};

use rules::{Layout, Reason, Refusal, Signed, Span};

// Where the column of a code, any three bytes, stands: its first and last byte, counted from 1. BAD_VALUE for over 13 entries, a code twice among them, or one that
// is not inside the line or ends before it starts; then ABSENT.
pub fn column(line: &[u8], es: Layout, code: [u8; 3]) -> Result<Span, Refusal>
    ensures { LookGiven line.now es code result }
{
    if !layout_fitting::fits(line, es) {
        return Err(Refusal {
            reason: Reason::BadValue,
            line: 0,
            byte: 0,
        });
    }
    let x = layout_codes::pack(code[0], code[1], code[2]);
    let Some(span) = layout_coded::look(es, x) else {
        return Err(Refusal {
            reason: Reason::Absent,
            line: 0,
            byte: 0,
        });
    };
    Ok(span)
}

// The text of that column, as a part of the line; empty where `column` refuses.
pub fn text<'a>(line: &'a [u8], es: Layout, code: [u8; 3]) -> &'a [u8]
    ensures { LookTextGiven line.now es code result.now }
{
    match column(line, es, code) {
        Ok(Span { first, last }) => layout_column::text_of(line, first, last),
        Err(_) => &[],
    }
}

// That column as a whole number. What `column` refuses, then NOT_NUMBER.
pub fn number(line: &[u8], es: Layout, code: [u8; 3]) -> Result<Signed, Refusal>
    ensures { LookNumberGiven line.now es code result }
{
    let span = column(line, es, code)?;
    let Some(z) = byte_number::whole(layout_column::text_of(line, span.first, span.last)) else {
        return Err(Refusal {
            reason: Reason::NotNumber,
            line: 0,
            byte: 0,
        });
    };
    Ok(z)
}
