//! What a follower is given, and why it stops.
use erm_model::{Commit, Stamp};
use thiserror::Error;

/// An item of a log, as far as the serial order is concerned.
#[derive(Clone, Copy)]
pub enum Seen {
    /// A commit.
    Commit(Commit),
    /// A safe stamp: each commit at or above it has a successor stamp at or above it.
    Safe(Stamp),
}

/// A safe stamp that a commit breaks.
#[derive(Clone, Copy, Debug, Error)]
#[error("the commit at {stamp} has the successor stamp {succ}, below the safe stamp {safe}")]
pub struct Broken {
    /// The safe stamp.
    pub safe: Stamp,
    /// The commit's stamp, at or above the safe stamp.
    pub stamp: Stamp,
    /// The commit's successor stamp, below the safe stamp.
    pub succ: Stamp,
}

/// Why nothing is told.
#[derive(Clone, Copy, Debug, Error)]
pub enum FollowStop {
    /// A commit breaks the greatest safe stamp so far: the one with the least stamp of those that do.
    #[error("{0}")]
    BrokenMark(Broken),
    /// Memory ran out; the follower is as it was.
    #[error("memory ran out")]
    Memory,
}
