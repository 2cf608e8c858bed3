// Layouts: the columns that an I, a J or an M line tells. A layout read from its line, and what a layout says as a value.
#![tactic(auto)]

mod reading;
mod values;

pub use layout_entry::empty_layout;
pub use reading::{layout_line, refused};
pub use values::{allowed, length, line_length, presence};
