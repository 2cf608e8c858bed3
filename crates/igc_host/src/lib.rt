// What the programs ask of the system that they run on: files by their names, the words that they were started with, what they write; and what failed, said on standard error.
#![tactic(auto)]

mod files;
mod host;
mod words;

pub use files::{create, open_read, read_full, remove, rename};
pub use host::{Host, fail};
pub use words::{arg, arg_count};
