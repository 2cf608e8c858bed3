// The lines that are written: B, I, J, K, M, N and C lines, each with its CR LF, into a lent output from a place on.
#![tactic(auto)]

mod extras;
mod fixes;
mod heads;

pub use extras::extra;
pub use fixes::fix;
pub use heads::head;
pub use write_legend::layout;
pub use write_point::point;
