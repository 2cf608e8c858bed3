// A line read by the readers of its kind: what it says is printed, or why it is refused. A good I, J or M line tells the layout of those after it.
use rules::{Date, Extra, Family, Fix, Head, Kind, Layout, Point, Refusal};

// The layouts of B, K and N lines that the lines so far have told.
#[derive(Clone, Copy)]
pub struct Told {
    pub fixes: Layout,
    pub extras: Layout,
    pub unsigned: Layout,
}

pub fn none_told() -> Told {
    Told {
        fixes: layout::empty_layout(),
        extras: layout::empty_layout(),
        unsigned: layout::empty_layout(),
    }
}

fn pass<R: Print>(rt: &R) {
    let _ = rt.write_all(b"PASS\n");
}

// What is lost of the output is missed where it is compared with what it must be.
fn print_refusal<R: Print>(rt: &R, why: Refusal) {
    let _ = igc_list::print_refusal(rt, why);
}

fn print_outcome<R: Print>(rt: &R, outcome: Result<(), Refusal>) {
    match outcome {
        Ok(()) => pass(rt),
        Err(why) => print_refusal(rt, why),
    }
}

fn print_time<R: Print>(rt: &R, read: Result<u32, Refusal>) {
    match read {
        Ok(_) => pass(rt),
        Err(why) => print_refusal(rt, why),
    }
}

fn print_date<R: Print>(rt: &R, line: &[u8]) {
    match line_read::date(line) {
        Ok(_) => pass(rt),
        Err(why) => print_refusal(rt, why),
    }
}

fn print_head<R: Print>(rt: &R, line: &[u8]) {
    match line_read::head(line) {
        Ok(_) => pass(rt),
        Err(why) => print_refusal(rt, why),
    }
}

fn print_point<R: Print>(rt: &R, line: &[u8]) {
    match line_read::point(line) {
        Ok(_) => pass(rt),
        Err(why) => print_refusal(rt, why),
    }
}

fn print_fix<R: Print>(rt: &R, line: &[u8], layout: Layout) {
    match line_read::fix(line, layout) {
        Ok(read) => {
            let _ = igc_list::print_fix(rt, 0, write_limits::fields_of(read.fix));
            let _ = igc_list::print_columns(rt, line, read.entries);
        }
        Err(why) => print_refusal(rt, why),
    }
}

fn print_extra<R: Print>(rt: &R, which: Extra, line: &[u8], layout: Layout) {
    match line_read::extra(which, line, layout) {
        Ok(read) => print_time(rt, Ok(read.time)),
        Err(why) => print_time(rt, Err(why)),
    }
}

// What the readers of a line's kind say of it, where it tells no layout; an H line is read as a date line and as another, a C line as a head and as a point, and a line of
// no kind as an event.
fn print_line<R: Print>(
    rt: &R,
    kind: Kind,
    line: &[u8],
    fixes: Layout,
    extras: Layout,
    unsigned: Layout,
) {
    match kind {
        Kind::A => print_outcome(rt, line_check::recorder(line)),
        Kind::B => print_fix(rt, line, fixes),
        Kind::C => {
            print_head(rt, line);
            print_point(rt, line);
        }
        Kind::D => print_outcome(rt, line_check::differential(line)),
        Kind::F => print_time(rt, line_read::satellites(line)),
        Kind::G => print_outcome(rt, byte_shape::shaped(line, 2, 255, false)),
        Kind::H => {
            print_date(rt, line);
            print_outcome(rt, line_check::header(line));
        }
        Kind::K => print_extra(rt, Extra::K, line, extras),
        Kind::L => print_outcome(rt, byte_shape::shaped(line, 1, 99, false)),
        Kind::N => print_extra(rt, Extra::N, line, unsigned),
        Kind::Other => print_outcome(rt, byte_shape::shaped(line, 1, 255, false)),
        _ => print_time(rt, line_read::event(line)),
    }
}

// What is said of an I, J or M line, and the layout that is told after it: the old one, where it is refused.
fn print_layout<R: Print>(rt: &R, family: Family, line: &[u8], old: Layout) -> Layout {
    match line_read::layout_of(family, line) {
        Ok(layout) => {
            pass(rt);
            layout
        }
        Err(why) => {
            let _ = igc_list::print_refusal(rt, why);
            old
        }
    }
}

// The layouts that are told after a line.
pub fn read<R: Print>(rt: &R, line: &[u8], told: Told) -> Told {
    let fixes = told.fixes;
    let extras = told.extras;
    let unsigned = told.unsigned;
    let kind = line_kind::kind_of(byte_chars::byte(line, 0));
    match kind {
        Kind::I => Told {
            fixes: print_layout(rt, Family::B, line, fixes),
            extras,
            unsigned,
        },
        Kind::J => Told {
            fixes,
            extras: print_layout(rt, Family::Extra(Extra::K), line, extras),
            unsigned,
        },
        Kind::M => Told {
            fixes,
            extras,
            unsigned: print_layout(rt, Family::Extra(Extra::N), line, unsigned),
        },
        _ => {
            print_line(rt, kind, line, fixes, extras, unsigned);
            told
        }
    }
}
