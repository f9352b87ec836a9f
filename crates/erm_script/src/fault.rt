//! What is wrong with a script.
use thiserror::Error;

/// A kind of fault of a line. They are tried in this order.
#[derive(Clone, Copy, Debug, PartialEq, Eq, Error)]
pub enum FaultKind {
    /// A line that is not for a session's own thread.
    #[error("the line is not for a session's own thread")]
    Threads,
    /// The first word isn't the name of a session.
    #[error("the first word isn't the name of a session")]
    Name,
    /// A name besides those of as many sessions as there may be.
    #[error("there are as many sessions as there may be")]
    Sessions,
    /// The second word is missing, or isn't that of a command.
    #[error("the second word isn't that of a command")]
    Command,
    /// Another number of words than the command takes.
    #[error("the command takes another number of words")]
    Args,
    /// A word that is to be a number isn't one, or is out of range.
    #[error("a word that is to be a number isn't one, or is out of range")]
    Number,
    /// A word that is to be a value isn't one.
    #[error("a word that is to be a value isn't one")]
    Value,
}

/// The first line of a script that is not in the grammar.
#[derive(Clone, Copy, Debug, Error)]
#[error("line {line}: {kind}")]
pub struct ScriptFault {
    /// Its number, from 1. Skipped lines count.
    pub line: u32,
    /// The first kind of fault that applies to it.
    pub kind: FaultKind,
}
