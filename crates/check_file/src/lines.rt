// The lines of a file checked one after the other, with the table of their offsets.
ghost use Rattle.std.specs.Prelude.{◌≤◌, length};
ghost use Rattle.check_file.specs.Checks.{LinesChecked};

use rules::{Checked, Refusal, Seal};

pub(crate) fn check_lines(seal: Seal, file: &[u8], lent: bool, table: &mut [u32]) -> Checked
    requires { (1 ≤ length file.now) × (length file.now ≤ 16777216) }
    ensures { LinesChecked seal lent file.now table.old result table.new }
{
    let mut at: usize = 0;
    let mut st = check_state::start_state();
    // No `for`: the place jumps from line to line.
    while at < file.len() {
        let run = check_ahead::run_ahead(file, lent, table, at, st);
        let from = run.at;
        let reached = run.state;
        if file.len() <= from {
            return check_finish::finished(seal, reached);
        }
        match crate::turn::take(file, lent, table, from, reached) {
            Ok(taken) => {
                st = taken.state;
                at = taken.at;
            }
            Err(why) => {
                return check_finish::refused(why);
            }
        }
    }
    check_finish::finished(seal, st)
}
