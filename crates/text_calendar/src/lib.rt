// The date that is so many days after a date, by the calendar.
#![tactic(auto)]

ghost use Rattle.std.specs.Prelude.{◌≤◌, ◌≡◌};
ghost use Rattle.rules.specs.Fields.{days_of};
ghost use Rattle.text_calendar.specs.Calendar.{opening, year_behind, month_behind, next_day, days_after, civil_told, DateAfter};
ghost use Rattle.text_calendar.specs.Steps.{year_from, Walks};

use rules::Date;

// A date whose year has room for all that days lead to.
#[derive(Clone, Copy)]
pub struct Civil {
    pub year: u32,
    pub month: u8,
    pub day: u8,
}

// A month of a year.
#[derive(Clone, Copy)]
struct Month {
    year: u32,
    month: u8,
}

// How many days a month of a year has. A year that is 400 less has as many.
fn length_of(year: u32, month: u8) -> u64
    ensures { result ≡ days_of year month }
{
    field_time::days_of((year % 400) as u16, month as u64)
}

// The month behind a month.
fn behind(c: Month) -> Month
    requires { c.year ≤ 33554432 }
    ensures { (result.year ≡ year_behind c.year c.month) × (result.month ≡ month_behind c.month) }
{
    if c.month < 12 {
        return Month {
            year: c.year,
            month: c.month + 1,
        };
    }
    Month {
        year: c.year + 1,
        month: 1,
    }
}

// The day after a date.
fn next_day(d: Date) -> Civil
    ensures { civil_told result ≡ next_day d }
{
    let year = d.year as u32;
    if (d.day as u64) < length_of(year, d.month) {
        return Civil {
            year,
            month: d.month,
            day: d.day + 1,
        };
    }
    let first = behind(Month {
        year,
        month: d.month,
    });
    Civil {
        year: first.year,
        month: first.month,
        day: 1,
    }
}

// How many days there are from the first of a month to the first of the same month a year later.
fn year_from(year: u32, month: u8) -> u64
    requires { year ≤ 33554432 }
    ensures { result ≡ year_from year month }
{
    if month <= 2 {
        return 337 + length_of(year, 2);
    }
    337 + length_of(year + 1, 2)
}

// So many days, fewer than 146,097, after the first of a month, by years and then by months.
fn walk(year: u32, month: u8, days: u64) -> Civil
    requires { Walks year month days }
    ensures { civil_told result ≡ days_after days (opening year month) }
{
    let mut y = year;
    let mut left = days;
    // No `for`: a turn takes a whole year of the days that are left, and below a whole month.
    while 366 <= left {
        left -= year_from(y, month);
        y += 1;
    }
    let mut at = Month { year: y, month };
    let mut length = length_of(y, month);
    while length <= left {
        left -= length;
        at = behind(at);
        length = length_of(at.year, at.month);
    }
    Civil {
        year: at.year,
        month: at.month,
        day: (left + 1) as u8,
    }
}

// The date that is so many days after a date. A date that does not exist, as no file has one, is followed by the first of the month behind it, or by the first of January.
pub fn date_after(d: Date, days: u32) -> Civil
    ensures { DateAfter d days result }
{
    if days == 0 {
        return Civil {
            year: d.year as u32,
            month: d.month,
            day: d.day,
        };
    }
    let c = next_day(d);
    let left = c.day as u64 - 1 + (days as u64 - 1);
    let eras = left / 146097;
    walk(c.year + eras as u32 * 400, c.month, left % 146097)
}
