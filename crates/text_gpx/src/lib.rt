// A track as GPX 1.1, put into a lent buffer: what stands before the first point, a fix as a point, and what stands behind the last.
#![tactic(auto)]

ghost use Rattle.text_pieces.specs.Buffer.{PiecePut};
ghost use Rattle.text_gpx.specs.Points.{open_shown, shut_shown, place_shown, rise_shown, point_shown};

use rules::{Date, FinePosition, FineTime, Fix, Height};
use text_decimals::put_degrees_behind;
use text_instant::{put_height, put_instant};
use text_pieces::put_text;

// The text before the first point. The answer is the place behind it; a full buffer takes no more.
pub fn put_open(out: &mut [u8], at: usize) -> usize
    ensures { PiecePut out.old at open_shown result out.new }
{
    put_text(
        out,
        at,
        b"<?xml version=\"1.0\" encoding=\"UTF-8\"?>\n<gpx version=\"1.1\" creator=\"Hivebasket\" xmlns=\"http://www.topografix.com/GPX/1/1\">\n<trk><trkseg>\n",
    )
}

// The text behind the last point.
pub fn put_shut(out: &mut [u8], at: usize) -> usize
    ensures { PiecePut out.old at shut_shown result out.new }
{
    put_text(out, at, b"</trkseg></trk></gpx>\n")
}

// The beginning of a point: its position.
fn put_place(out: &mut [u8], at: usize, lat: FinePosition, lon: FinePosition) -> usize
    ensures { PiecePut out.old at (place_shown lat lon) result out.new }
{
    let a = put_text(out, at, b"<trkpt lat=");
    let b = put_degrees_behind(out, a, b'"', lat);
    let c = put_text(out, b, b"\" lon=");
    put_degrees_behind(out, c, b'"', lon)
}

// The rest of a point: its altitude and its moment.
fn put_rise(out: &mut [u8], at: usize, date: Date, day: u32, t: FineTime, h: Height) -> usize
    ensures { PiecePut out.old at (rise_shown date day t h) result out.new }
{
    let a = put_text(out, at, b"\"><ele");
    let b = put_height(out, a, b'>', h);
    let c = put_text(out, b, b"</ele><time>");
    let d = put_instant(out, c, date, day, t);
    put_text(out, d, b"</time></trkpt>\n")
}

// A fix on a day that is counted from a date, as a point: its position, its GNSS altitude and its moment. The answer is the place behind it; a full buffer takes no more.
pub fn put_point(out: &mut [u8], at: usize, date: Date, day: u32, f: Fix) -> usize
    ensures { PiecePut out.old at (point_shown date day f) result out.new }
{
    let a = put_place(out, at, f.lat, f.lon);
    put_rise(out, a, date, day, f.time, f.gnss)
}
