// Lists each argument that names a file, and reads each other one as a line; then checks files at the size limit, and writes by layouts that no line tells.
#![tactic(auto)]

mod files;
mod large;
mod layouts;
mod lines;

use igc_host::Host;
use lines::Told;

// An argument listed or read, and the layouts told up to it.
fn take<R: Host>(rt: &R, i: usize, told: Told) -> Told {
    let mut word = [0u8; 4096];
    let n = igc_host::arg(rt, i, &mut word);
    match igc_host::open_read(rt, &word[..n]) {
        Ok(opened) => {
            let mut file = opened;
            files::list(rt, &word[..n], &mut file);
            told
        }
        Err(_) => lines::read(rt, &word[..n], told),
    }
}

fn main(rt: HostRuntime) {
    let n = igc_host::arg_count(&rt);
    let mut told = lines::none_told();
    let mut i = 1;
    while i < n {
        told = take(&rt, i, told);
        i += 1;
    }
    large::check(&rt);
    layouts::write(&rt);
}
