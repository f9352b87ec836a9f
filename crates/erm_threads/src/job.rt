//! What a worker is given, and what it leaves there.
use erm_report::Answer;
use erm_script::ScriptLine;

/// A session with its lines, and what its worker did.
#[derive(Drop)]
pub struct Job<S, T> {
    pub session: S,
    /// What the worker waits by.
    pub turns: T,
    /// The lines of a script that are the session's, in order.
    pub lines: Vec<ScriptLine>,
    /// Empty at first, with room for an answer to each of them. Behind the worker, as in `Done`.
    pub answers: Vec<Answer>,
    /// Behind the worker, as in `Done`; so it is with the next one.
    pub closed: Option<Answer>,
    pub lacked: bool,
}

/// A session after its worker.
#[derive(Drop)]
pub struct Done<S> {
    pub session: S,
    /// The answers of its first lines. Fewer than it has lines: the worker was told to stop, or memory ran out.
    pub answers: Vec<Answer>,
    /// The answer of its closing behind the last line. `None` where it had no transaction, or was left.
    pub closed: Option<Answer>,
    /// Whether memory ran out, for this session or for another one, so that its worker was told to stop.
    pub lacked: bool,
}
