//! The flush seat's pin: the log's end is pinned, rows are read as of it, and it is ended. None of the calls waits or takes memory.
#![tactic(auto)]

mod loading;
mod pins;
mod rows;

pub use loading::load_pinned;
pub use pins::{pin, unpin};
pub use rows::row_at;
