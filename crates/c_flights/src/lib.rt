// The calls from C on whole files: two of them merged, a file's track told, its columns and what each of its lines is put into a list, its declaration told, its summary kept, and files
// kept on a shelf.
#![tactic(auto)]

mod declarations;
mod grids;
mod lettered;
mod merging;
mod shelves;
mod summaries;
mod tracks;

pub use declarations::declaration;
pub use grids::columns;
pub use lettered::kinds;
pub use merging::merge;
pub use shelves::{shelf_add, shelf_ask, shelf_pack, shelf_remove};
pub use summaries::summary;
pub use tracks::tell_track;
