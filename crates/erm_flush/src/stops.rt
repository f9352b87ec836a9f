//! Why nothing more is flushed.
use erm_model::Stamp;
use thiserror::Error;

/// Why a call of a flusher flushed nothing. Places are in words of the log.
#[derive(Clone, Copy, Debug, PartialEq, Eq, Error)]
pub enum FlushStop {
    /// The log ends at this place, and is flushed up to it.
    #[error("the log ends at {at}, and is flushed up to there")]
    Empty { at: Stamp },
    /// The log is flushed up to this place, where a transaction's range begins that isn't decided yet.
    #[error("the log is flushed up to {at}, where a transaction isn't decided yet")]
    Unfilled { at: Stamp },
    /// The disk failed. The log is flushed as far as before, and the store has to be opened again.
    #[error("the disk failed")]
    DiskFault,
    /// The disk failed at an earlier call.
    #[error("the disk failed at an earlier call")]
    Failed,
}
