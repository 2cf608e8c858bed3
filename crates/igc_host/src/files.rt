// Files by their names, which are bytes. The library takes paths that are UTF-8 text alone.
ghost use Rattle.io.specs.Counts.{IsPrefixLen};

use crate::host::Host;
use std::fs::OpenOptions;
use std::io::Read;
use std::{fs, io};

// Linux's EILSEQ: "Invalid or incomplete multibyte or wide character".
const NOT_TEXT: i32 = 84;

// The path that a name is; an error where it is not UTF-8.
fn path_of(name: &[u8]) -> io::Result<&str> {
    std::str::from_utf8(name).map_err(|_| io::Error::from_raw_os_error(NOT_TEXT))
}

// Opens a file to be read.
pub fn open_read<R: Host>(rt: &R, name: &[u8]) -> io::Result<R::File> {
    fs::open(rt, path_of(name)?)
}

// Makes a file, open for writing. Where there is one by that name, it stays as it is, and that is the error.
pub fn create<R: Host>(rt: &R, name: &[u8]) -> io::Result<R::File> {
    let path = path_of(name)?;
    let mut how = OpenOptions::new();
    how.write(true).create_new(true);
    how.open(rt, path)
}

// Removes a file.
pub fn remove<R: Host>(rt: &R, name: &[u8]) -> io::Result<()> {
    fs::remove_file(rt, path_of(name)?)
}

// Gives a file another name, and takes that name from the file that has it.
pub fn rename<R: Host>(rt: &R, from: &[u8], to: &[u8]) -> io::Result<()> {
    let old = path_of(from)?;
    let new = path_of(to)?;
    fs::rename(rt, old, new)
}

// Reads until the buffer is full, the input ends or a read fails: how many bytes stand at the buffer's start.
pub fn read_full<F: Read>(file: &mut F, input: &mut [u8]) -> usize
    ensures { IsPrefixLen result input.new }
{
    let mut count = 0;
    // The count goes on by what each read gives, and is the answer also where a read fails.
    while count < input.len() {
        match file.read(&mut input[count..]) {
            Ok(0) => return count,
            Ok(n) => count += n,
            Err(_) => return count,
        }
    }
    count
}
