// A file listed, with its name before it.
use std::io::Read;

// What is lost of the output is missed where it is compared with what it must be.
pub fn list<R: Print, F: Read>(rt: &R, name: &[u8], file: &mut F) {
    let _ = rt.write_all(name);
    let _ = rt.write_all(b"\n");
    let mut input = [0u8; 65537];
    let got = igc_host::read_full(file, &mut input);
    let _ = igc_list::list(rt, &input[..got]);
}
