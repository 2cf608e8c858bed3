// The system as one handle, and what it says of a failure.
use std::env::Env;
use std::io;
use std::io::{Cursor, Write};
use std::rt::Files;

// Files, the program's words and standard output, and besides them standard error.
pub trait Host: Files + Env + Print {
    // Writes bytes on standard error.
    fn complain(&self, text: &[u8]) -> io::Result<()>;
}

impl Host for HostRuntime {
    fn complain(&self, text: &[u8]) -> io::Result<()> {
        self.stderr().write_all(text)
    }
}

// The system's words for an error, without the number that the library puts behind them.
fn say_cause<R: Host>(rt: &R, error: io::Error) -> io::Result<()> {
    let mut said = Cursor::new([0u8; 256]);
    write!(said, "{error}")?;
    let n = (said.position() as usize).min(256);
    let all = said.into_inner();
    let Ok(text) = std::str::from_utf8(&all[..n]) else {
        return Ok(());
    };
    let cause = text
        .split_once(" (os error ")
        .map_or(text, |(cause, _)| cause);
    rt.complain(cause.as_bytes())
}

// A line on standard error: what failed, a colon and the system's words for it. Where that cannot be written either, nothing more can be said.
pub fn fail<R: Host>(rt: &R, what: &[u8], error: io::Error) {
    let _ = rt.complain(what);
    let _ = rt.complain(b": ");
    let _ = say_cause(rt, error);
    let _ = rt.complain(b"\n");
}
