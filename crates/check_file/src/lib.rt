// A file in lent memory: the check of the whole file, with a table of its lines' offsets or without one.
#![tactic(auto)]

ghost use Rattle.rules.specs.Promises.{FileChecked, FileJudged};
ghost use Rattle.check_file.specs.Checks.{LinesChecked};

use rules::{Checked, Reason, Seal};

mod lines;
mod turn;

pub use turn::take;

// The check of a whole file, the table used only where it is lent.
fn check_whole(seal: Seal, file: &[u8], lent: bool, table: &mut [u32]) -> Checked
    ensures { LinesChecked seal lent file.now table.old result table.new }
{
    if file.len() < 1 {
        return check_finish::refused(file_lines::unplaced(Reason::Empty));
    }
    if 16777216 < file.len() {
        return check_finish::refused(file_lines::unplaced(Reason::TooLong));
    }
    lines::check_lines(seal, file, lent, table)
}

// The check of a whole file: what it says, with the table's first entries set to its lines' offsets. Refused with 1 to 16 or 22 to 25, the table then set for the
// lines before the faulty one; entries past the last good line stay as they are.
pub fn check(seal: Seal, file: &[u8], table: &mut [u32]) -> Checked
    ensures { FileChecked seal file.now table.old result table.new }
{
    check_whole(seal, file, true, table)
}

// The check of a whole file where no table is lent: what it says. Refused with 1 to 14, 16 or 22 to 25.
pub fn check_untabled(seal: Seal, file: &[u8]) -> Checked
    ensures { FileJudged seal file.now result }
{
    let mut unused = [0u32; 1];
    check_whole(seal, file, false, &mut unused)
}
