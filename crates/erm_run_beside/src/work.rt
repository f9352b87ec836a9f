//! What is known of the work of a session.
use erm_report::Answer;

/// The work of a session.
#[derive(Drop)]
pub struct SessionWork {
    /// The answers of its first lines. Fewer than it has lines: its worker halted, or memory ran out in the line behind them.
    pub answers: Vec<Answer>,
    /// The answer of its closing behind the last line. `None` where it was idle, or was left.
    pub closed: Option<Answer>,
    /// Whether memory ran out, for this session or for another one that its worker halted for.
    pub lacked: bool,
}

/// What is known of sessions that ran on threads.
#[derive(Drop)]
pub struct Ran {
    /// Whether the disk failed.
    pub failed: bool,
    /// The work of each session, in the order of their seats.
    pub sessions: Vec<SessionWork>,
}
