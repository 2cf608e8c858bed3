// Lines written by layouts that no line tells, so that only a value of their own type can: each is refused, and the output stays.
use rules::{Entry, Extra, Family, FinePosition, FineTime, Fix, Height, Layout, Refusal};

fn one(first: u8, last: u8) -> Layout {
    let mut layout = layout::empty_layout();
    layout.entries[0] = Entry {
        first,
        last,
        code: 0x484454,
    };
    layout.count = 1;
    layout
}

// The answer and the whole output.
fn print<R: Print>(rt: &R, answer: Result<usize, Refusal>, out: &[u8]) {
    match answer {
        Ok(_) => {
            let _ = rt.write_all(b"WROTE\n");
        }
        Err(why) => {
            let _ = igc_list::print_refusal(rt, why);
        }
    }
    let _ = rt.write_all(out);
    let _ = rt.write_all(b"\n");
}

// The line of a layout.
fn put_line<R: Print>(rt: &R, family: Family, layout: Layout) {
    let mut out = [46u8; 24];
    let r = write_line::layout(family, layout, &mut out, 0);
    print(rt, r, &out);
}

// The I line of a layout with HDT from byte 36 to 38, and a second entry.
fn second<R: Print>(rt: &R, first: u8, last: u8, code: u32, count: usize) {
    let mut layout = one(36, 38);
    layout.entries[1] = Entry { first, last, code };
    layout.count = count;
    put_line(rt, Family::B, layout);
}

// A K line by the layout of an I line.
fn extra<R: Print>(rt: &R) {
    let mut out = [46u8; 16];
    let r = write_line::extra(Extra::K, 0, b"090", one(36, 38), &mut out, 0);
    print(rt, r, &out);
}

// A B line by the layout of a J line.
fn fix<R: Print>(rt: &R) {
    let f = Fix {
        time: FineTime {
            count: 43200,
            decimals: 0,
        },
        lat: FinePosition {
            count: 0,
            letter: b'S',
            decimals: 0,
        },
        lon: FinePosition {
            count: 10800000,
            letter: b'E',
            decimals: 0,
        },
        validity: b'A',
        pressure: Height { metres: 100 },
        gnss: Height { metres: 120 },
    };
    let mut out = [46u8; 44];
    let r = write_line::fix(f, b"012", one(8, 10), &mut out, 0);
    print(rt, r, &out);
}

// The first start, a width, a finish below its start, a gap, a code twice, a character that is no code's, a finish over 99, a count that leaves an entry out, and one over 13.
pub fn write<R: Print>(rt: &R) {
    put_line(rt, Family::B, one(35, 38));
    put_line(rt, Family::Extra(Extra::K), one(8, 9));
    second(rt, 39, 38, 0x5A5A5A, 2);
    second(rt, 40, 42, 0x5A5A5A, 2);
    second(rt, 39, 41, 0x484454, 2);
    second(rt, 39, 41, 0x5A5A7A, 2);
    second(rt, 39, 100, 0x5A5A5A, 2);
    second(rt, 39, 41, 0x484D54, 1);
    second(rt, 39, 41, 0x484D54, 14);
    extra(rt);
    fix(rt);
}
