// A new file made, or one put in the place of another; or what failed said.
use crate::{say_left, say_unfilled, say_unmade, say_unplaced};
use igc_host::Host;
use std::fs::OpenFile;
use std::io;
use std::io::Write;

// All of the bytes written, and brought to the file's device; or why not.
fn keep<F: Write + OpenFile>(file: &mut F, made: &[u8]) -> io::Result<()> {
    file.write_all(made)?;
    file.sync_all()
}

// The bytes put into a file that is open, which is then closed. What failed is said.
fn fill<R: Host>(rt: &R, name: &[u8], file: R::File, made: &[u8]) -> bool {
    let mut file = file;
    match keep(&mut file, made) {
        Ok(()) => true,
        Err(error) => {
            say_unfilled(rt, name, error);
            false
        }
    }
}

// A new file, open for writing; where there is one by that name, it stays as it is. None, and said, where it cannot be made.
pub fn open_new<R: Host>(rt: &R, name: &[u8]) -> Option<R::File> {
    match igc_host::create(rt, name) {
        Ok(file) => Some(file),
        Err(error) => {
            say_unmade(rt, name, error);
            None
        }
    }
}

// What was written of a file is removed again.
fn drop_made<R: Host>(rt: &R, name: &[u8]) {
    if let Err(error) = igc_host::remove(rt, name) {
        say_left(rt, name, error);
    }
}

// A new file that is open is closed, and removed again.
pub fn give_up<R: Host>(rt: &R, name: &[u8], file: R::File) {
    drop(file);
    drop_made(rt, name);
}

// A new file of these bytes; where there is one by that name, it stays as it is. One that cannot be written whole is removed again: cut off behind a note, it would pass for a
// file that has no more.
pub fn make<R: Host>(rt: &R, name: &[u8], made: &[u8]) -> bool {
    let Some(file) = open_new(rt, name) else {
        return false;
    };
    if fill(rt, name, file, made) {
        return true;
    }
    drop_made(rt, name);
    false
}

// The bytes in the place of a file: a new file, which is open, is written whole and then takes the other's name. Where that fails the new one is removed, and the old one stays as it is.
pub fn replace<R: Host>(rt: &R, name: &[u8], new: &[u8], file: R::File, made: &[u8]) -> bool {
    if !fill(rt, new, file, made) {
        drop_made(rt, new);
        return false;
    }
    match igc_host::rename(rt, new, name) {
        Ok(()) => true,
        Err(error) => {
            say_unplaced(rt, name, error);
            drop_made(rt, new);
            false
        }
    }
}
