//! Why no checkpoint was taken.
use erm_model::{Seat, Stamp};
use thiserror::Error;

/// Why a checkpoint wasn't taken. Places are in words of the log.
#[derive(Clone, Copy, Debug, PartialEq, Eq, Error)]
pub enum CheckpointStop {
    /// The log is flushed up to this place, below the place pinned: there a transaction's range begins that isn't decided yet.
    #[error("the log is flushed up to {at}, where a transaction isn't decided yet")]
    Unfilled { at: Stamp },
    /// A row isn't known yet: the transaction of this seat is sealed with the stamp `seen`, and may have written it.
    #[error("the transaction of seat {seat} is sealed with stamp {seen}, and may have written a row")]
    NotYet { seat: Seat, seen: Stamp },
    /// The disk failed. The store has to be opened again.
    #[error("the disk failed")]
    DiskFault,
    /// The disk failed at an earlier call.
    #[error("the disk failed at an earlier call")]
    Failed,
}
