// The fields of a line put into a lent output at a place of it: time, date, latitude, longitude and altitude. Each has room there as a whole, or nothing
// changes.
#![tactic(auto)]

ghost use Rattle.std.specs.Prelude.{◌≤◌};
ghost use Rattle.rules.specs.Promises.{TimePut, DatePut, LatitudePut, LongitudePut};
ghost use Rattle.write_fields.specs.Parts.{PairsPut, PositionPut};

use rules::{Date, Position};
pub use write_height::altitude;

// Three numbers of two digits each.
fn pairs(out: &mut [u8], at: usize, a: u64, b: u64, c: u64)
    ensures { PairsPut a b c at out.old out.new }
{
    if out.len() < at || out.len() - at < 6 {
        return;
    }
    byte_put::digits(out, at, 2, a);
    byte_put::digits(out, at + 2, 2, b);
    byte_put::digits(out, at + 2 + 2, 2, c);
}

// HHMMSS, of seconds of the day; 86400 is 235960.
pub fn time(out: &mut [u8], at: usize, t: u32)
    ensures { TimePut t at out.old out.new }
{
    let s = t as u64;
    if s == 86400 {
        pairs(out, at, 23, 59, 60);
        return;
    }
    pairs(out, at, s / 3600, s / 60 % 60, s % 60);
}

// DDMMYY.
pub fn date(out: &mut [u8], at: usize, d: Date)
    ensures { DatePut d at out.old out.new }
{
    pairs(out, at, d.day as u64, d.month as u64, (d.year % 100) as u64);
}

// Degrees of `width` digits, MMmmm and the letter.
fn position(out: &mut [u8], at: usize, width: usize, p: Position)
    requires { width ≤ 3 }
    ensures { PositionPut width p at out.old out.new }
{
    if out.len() < at || out.len() - at < width + 6 {
        return;
    }
    byte_put::digits(out, at, width, p.count / 60000);
    byte_put::digits(out, at + width, 5, p.count % 60000);
    byte_put::byte(out, at + width + 5, p.letter);
}

// DDMMmmm and the letter.
pub fn latitude(out: &mut [u8], at: usize, p: Position)
    ensures { LatitudePut p at out.old out.new }
{
    position(out, at, 2, p);
}

// DDDMMmmm and the letter.
pub fn longitude(out: &mut [u8], at: usize, p: Position)
    ensures { LongitudePut p at out.old out.new }
{
    position(out, at, 3, p);
}
