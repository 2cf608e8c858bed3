// The call from C on a row of the table of listed codes.
ghost use Rattle.std.specs.Prelude.{◌≡◌};
ghost use Rattle.c_answers.specs.Answers.{accepting, in_numbers};
ghost use Rattle.c_columns.specs.Rows.{one_if, row_numbers, listed_said, ListedAnswered};

use c_answers::Numbers;
use rules::{Listed, Reason, Refusal};

// A mark as a number.
fn one_if(mark: bool) -> u64
    ensures { result ≡ one_if mark }
{
    u64::from(mark)
}

// A row in numbers: the three characters of the code, its widths, its mark.
fn row_values(row: Listed) -> Numbers
    ensures { result ≡ accepting (row_numbers row) }
{
    let code = row.code as u64;
    let least = row.least as u64;
    let most = row.most as u64;
    let minus = one_if(row.sign);
    c_answers::accepted(&[
        code / 65536,
        code / 256 % 256,
        code % 256,
        least,
        most,
        minus,
    ])
}

// The row with this number; refused where there is none.
fn numbers(n: u32) -> Numbers
    ensures { result ≡ in_numbers row_numbers (listed_said n) }
{
    if 15 <= n {
        return c_answers::refused(Refusal {
            reason: Reason::BadValue,
            line: 0,
            byte: 0,
        });
    }
    row_values(layout_codes::listed_at(n as usize))
}

// Listed code n, counted from 0: its characters, the least and the most width of its column, and whether a minus may stand first there. 17 for a number past the last.
pub fn listed(n: u32, answer: &mut [u64]) -> u32
    ensures { ListedAnswered n answer.old result answer.new }
{
    c_answers::give(answer, numbers(n))
}
