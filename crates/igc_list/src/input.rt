// The end of an input.
use std::io::Read;

// Whether no byte is left: a read that fails, and bytes that come after all, say no.
pub fn is_at_end<F: Read>(file: &mut F) -> bool {
    let mut byte = [0u8; 1];
    match file.read(&mut byte) {
        Ok(n) => n == 0,
        Err(_) => false,
    }
}
