//! Transactions that a report tells of.
use erm_model::{Seat, Stamp};

/// How a transaction ended.
#[derive(Clone, Copy, Debug, PartialEq, Eq)]
pub enum Ending {
    /// It isn't over.
    Unfinished,
    /// It committed.
    Commits {
        stamp: Stamp,
        succ: Stamp,
        pred: Stamp,
    },
    /// It was excluded; before its seal it has no stamp.
    Excludes {
        stamp: Option<Stamp>,
        succ: Stamp,
        pred: Stamp,
    },
    /// It was aborted.
    Aborts,
}

/// A transaction that a report tells of.
#[derive(Drop)]
pub struct Told {
    /// Its session.
    pub session: Seat,
    /// Its number in the session, from 1.
    pub number: u64,
    /// Its begin stamp.
    pub begin: Stamp,
    /// The places in the script of its lines that name a table.
    pub lines: Vec<usize>,
    /// Its commit stamp, where a line told that it was sealed.
    pub sealed: Option<Stamp>,
    /// How it ended.
    pub ending: Ending,
}
