// The forms that a track is written in: what stands before the first fix, a fix, and what stands behind the last, each put into a lent buffer.
#![tactic(auto)]

ghost use Rattle.text_pieces.specs.Buffer.{PiecePut};
ghost use Rattle.text_forms.specs.Forms.{front_of, line_as, back_of};

use rules::Date;
use track_rules::Record;

// Lines for people; comma-separated values and GPX, which have a date in each line, counted from the file's.
#[derive(Clone, Copy)]
pub enum Form {
    Track,
    Csv(Date),
    Gpx(Date),
}

// What stands before the first fix. The answer is the place behind it; a full buffer takes no more.
pub fn put_front(out: &mut [u8], at: usize, form: Form) -> usize
    ensures { PiecePut out.old at (front_of form) result out.new }
{
    match form {
        Form::Track => at,
        Form::Csv(_) => text_csv::put_names(out, at),
        Form::Gpx(_) => text_gpx::put_open(out, at),
    }
}

// A fix of a track. The answer is the place behind it; a full buffer takes no more.
pub fn put_line(out: &mut [u8], at: usize, form: Form, r: Record) -> usize
    ensures { PiecePut out.old at (line_as form r) result out.new }
{
    let fix = r.fix;
    match form {
        Form::Track => text_track::put_record(out, at, r.line, r.day, fix),
        Form::Csv(date) => text_csv::put_row(out, at, date, r.day, fix),
        Form::Gpx(date) => text_gpx::put_point(out, at, date, r.day, fix),
    }
}

// What stands behind the last fix.
pub fn put_back(out: &mut [u8], at: usize, form: Form) -> usize
    ensures { PiecePut out.old at (back_of form) result out.new }
{
    match form {
        Form::Track => at,
        Form::Csv(_) => at,
        Form::Gpx(_) => text_gpx::put_shut(out, at),
    }
}
