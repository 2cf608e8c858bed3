// Whether values given to a writer keep to their limits: the tests of which number 17 is made. And what a fix has to be spelt as.
#![tactic(auto)]

mod lines;
mod splits;
mod tails;

pub use lines::{good_extra, good_fix, good_head};
pub use splits::fields_of;
