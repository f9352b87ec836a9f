//! Where a log list ends.
use erm_model::Stamp;

/// Where a log list ends: the place, and the run of the last block before it.
#[derive(Clone, Copy, Debug, PartialEq, Eq)]
pub struct Tail {
    /// The place: the next free word of the log.
    pub at: Stamp,
    /// The run of the last block before it, or of the checkpoint there; 0 where there is none.
    pub run: u64,
}
