//! Words of the log, written to a disk and read from it, and what a crash leaves of them.
#![tactic(auto)]

mod laws;
mod read;
mod write;

pub use laws::{lists_join, writes_join, writes_spare_others};
pub use read::read_log;
pub use write::write_log;
