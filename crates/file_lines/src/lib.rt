// A file cut into its lines: where a line ends, and a line by its number.
#![tactic(auto)]

ghost use Rattle.rules.specs.Promises.{LineGiven, LineTextGiven};
ghost use Rattle.file_lines.specs.Ends.{UnplacedGiven};

use rules::{Bounds, Reason, Refusal};

mod scan;

pub use scan::{Ended, crlf_from, line_end};

// Where line n stands, by a table of the lines' offsets: how many bytes stand before it and before its CR LF. Refused with 17 where n is 0 or past the table's
// entries, where the entry is neither 0 nor just past a CR LF, and where no CR LF comes from there on.
#[tactic(auto, using(rules::proofs::Links::fields, crate::proofs::Places::refuses_unplaced), unfolding(rules::specs::Split::bounds_of, rules::specs::Refusals::result_told, rules::specs::Choice::on))]
pub fn bounds(file: &[u8], table: &[u32], n: usize) -> Result<Bounds, Refusal>
    ensures { LineGiven file.now table.now n result }
{
    if n < 1 || table.len() < n {
        return Err(unplaced(Reason::BadValue));
    }
    let start = table[n - 1] as usize;
    if !scan::is_start(file, start) {
        return Err(unplaced(Reason::BadValue));
    }
    let end = crlf_from(file, start).ok_or(unplaced(Reason::BadValue))?;
    Ok(Bounds {
        from: start,
        to: end,
    })
}

// Line n without its CR LF, as a part of the file; no bytes where `bounds` refuses it.
pub fn line<'a>(file: &'a [u8], table: &[u32], n: usize) -> &'a [u8]
    ensures { LineTextGiven file.now table.now n result.now }
{
    match bounds(file, table, n) {
        Ok(b) => &file[b.from..b.to],
        Err(_) => &file[0..0],
    }
}

// A refusal with no line and no byte.
pub fn unplaced(reason: Reason) -> Refusal
    ensures { UnplacedGiven reason result }
{
    Refusal {
        reason,
        line: 0,
        byte: 0,
    }
}
