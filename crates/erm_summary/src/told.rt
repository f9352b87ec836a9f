//! What a report tells of its sessions.
use erm_model::{Seat, Stamp};
use erm_report::Answer;

/// A session that was not idle at the end, and how it was closed.
#[derive(Drop)]
pub struct ClosedSession {
    pub session: Seat,
    pub answer: Answer,
}

/// A transaction that committed, or a safe snapshot that ended, which stands in the serial order at its begin stamp: that is its successor
/// stamp, and its stamp is above all commits'.
#[derive(Drop)]
pub struct ToldCommit {
    pub session: Seat,
    /// Its number in its session, from 1.
    pub number: u32,
    pub begin: Stamp,
    pub stamp: Stamp,
    pub succ: Stamp,
    pub pred: Stamp,
    /// The places in the script of its lines that got a reply, in order.
    pub lines: Vec<usize>,
}
