// A position for the map.
ghost use Rattle.rules.specs.Refusals.{result_told};
ghost use Rattle.std.specs.Prelude.{◌∷◌, [], ◌≡◌, length};
ghost use Rattle.c_answers.specs.Answers.{number_of};
ghost use Rattle.c_lines.specs.Values.{angles_of};
ghost use Rattle.c_lines.specs.Calls.{DegreesAnswered};

use rules::{Degrees, FinePosition, Refusal};

fn put_pair(out: &mut [f64], a: f64, b: f64)
    requires { length out.old ≡ 2 }
    ensures { out.new ≡ a ∷ b ∷ [] }
{
    out[0] = a;
    out[1] = b;
}

// The two angles, or 0 and 0.
fn put_degrees(out: &mut [f64], read: Result<Degrees, Refusal>)
    requires { length out.old ≡ 2 }
    ensures { out.new ≡ angles_of (result_told read) }
{
    match read {
        Ok(d) => put_pair(out, d.lat, d.lon),
        Err(_) => put_pair(out, 0.0, 0.0),
    }
}

fn number(read: Result<Degrees, Refusal>) -> u32
    ensures { result ≡ number_of (result_told read) }
{
    match read {
        Ok(_) => 0,
        Err(why) => c_answers::number(why),
    }
}

// A latitude and a longitude in degrees, each a count with its letter and its extra decimals.
pub fn degrees(
    latitude: u64,
    n_or_s: u8,
    latitude_decimals: u8,
    longitude: u64,
    e_or_w: u8,
    longitude_decimals: u8,
    degrees: &mut [f64],
) -> u32
    ensures { DegreesAnswered (record { count = latitude; letter = n_or_s; decimals = latitude_decimals }) (record { count = longitude; letter = e_or_w; decimals = longitude_decimals }) degrees.old result degrees.new }
{
    if degrees.len() != 2 {
        return 17;
    }
    let lat = FinePosition {
        count: latitude,
        letter: n_or_s,
        decimals: latitude_decimals,
    };
    let lon = FinePosition {
        count: longitude,
        letter: e_or_w,
        decimals: longitude_decimals,
    };
    let read = field_degrees::degrees(lat, lon);
    put_degrees(degrees, read);
    number(read)
}
