//! What is known of programs that ran.
use erm_client::Transcript;
use erm_report::Answer;

/// A program after its run.
#[derive(Drop)]
pub struct ProgramRun<P> {
    pub program: P,
    /// What was asked of its client, and answered.
    pub transcript: Transcript,
    /// The answer of the session's closing behind the last line. `None` where it had no transaction, or was left.
    pub closed: Option<Answer>,
}

/// What is known of programs that ran on threads.
#[derive(Drop)]
pub struct ProgramsRan<P> {
    /// Whether the disk failed.
    pub failed: bool,
    /// Each program, in the order of the seats of their sessions, from 1 on.
    pub programs: Vec<ProgramRun<P>>,
}
