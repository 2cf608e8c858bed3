// The values of plain numbers that a line is written of.
ghost use Rattle.std.specs.Prelude.{◌≡◌};
ghost use Rattle.c_writers.specs.Values.{fix_from, planned_of, head_of, point_of};

use rules::{Date, FinePosition, FineTime, Fix, Head, Height, Point, Position};

fn height(metres: i32) -> Height
    ensures { result ≡ record { metres = metres } }
{
    Height { metres }
}

pub(crate) fn fix_from(
    seconds: u32,
    seconds_decimals: u8,
    latitude: u64,
    n_or_s: u8,
    latitude_decimals: u8,
    longitude: u64,
    e_or_w: u8,
    longitude_decimals: u8,
    validity: u8,
    pressure: i32,
    gnss: i32,
) -> Fix
    ensures { result ≡ fix_from seconds seconds_decimals latitude n_or_s latitude_decimals longitude e_or_w longitude_decimals validity pressure gnss }
{
    Fix {
        time: FineTime {
            count: seconds,
            decimals: seconds_decimals,
        },
        lat: FinePosition {
            count: latitude,
            letter: n_or_s,
            decimals: latitude_decimals,
        },
        lon: FinePosition {
            count: longitude,
            letter: e_or_w,
            decimals: longitude_decimals,
        },
        validity,
        pressure: height(pressure),
        gnss: height(gnss),
    }
}

// A flight date, which is not given where it is all 0.
#[tactic(auto, unfolding(crate::specs::Values::planned_of))]
fn planned_of(d: Date) -> Option<Date>
    ensures { result ≡ planned_of d }
{
    if d.day == 0 && d.month == 0 && d.year == 0 {
        return None;
    }
    Some(d)
}

pub(crate) fn head_of(declared: Date, seconds: u32, flight: Date, task: u16, turns: u8) -> Head
    ensures { result ≡ head_of declared seconds flight task turns }
{
    Head {
        declared,
        time: seconds,
        flight: planned_of(flight),
        task,
        turns,
    }
}

pub(crate) fn point_of(latitude: u64, n_or_s: u8, longitude: u64, e_or_w: u8) -> Point
    ensures { result ≡ point_of latitude n_or_s longitude e_or_w }
{
    Point {
        lat: Position {
            count: latitude,
            letter: n_or_s,
        },
        lon: Position {
            count: longitude,
            letter: e_or_w,
        },
    }
}
