//! How a run on a disk ends.
use erm_model::Stamp;
use erm_report::Line;
use std::fmt;
use thiserror::Error;

/// Why nothing was run on a disk.
#[derive(Clone, Copy, Debug, PartialEq, Eq, Error)]
pub enum DiskStop {
    /// The disk failed.
    #[error("the disk failed")]
    DiskFault,
    /// There are bytes on the disk, but no place to start from.
    #[error("there are bytes on the disk, but no place to start from")]
    NoBase,
    /// No run comes after this one, the last that is found.
    #[error("no run comes after {run}")]
    RunsEnd { run: u64 },
    /// The log has come as far as this, behind which nothing is opened.
    #[error("the log has no room behind {tail}")]
    LogEnd { tail: Stamp },
    /// Memory ran out.
    #[error("memory ran out")]
    Memory,
}

/// Why there is no report of a run, or none that is whole.
#[derive(Drop, Error)]
pub enum RunStop {
    /// Nothing was run.
    #[error("nothing was run: {0}")]
    Unopened(DiskStop),
    /// The disk failed: these are the lines so far, which end with that of the fault.
    #[error("the disk failed while the script was run")]
    DiskFault(Vec<Line>),
    /// Memory ran out while the script was run.
    #[error("memory ran out while the script was run")]
    Memory,
}

/// The sentence: the lines have a text of their own.
impl fmt::Debug for RunStop {
    fn fmt<W: fmt::Write>(&self, f: &mut fmt::Formatter<W>) -> fmt::Result {
        write!(f, "{self}")
    }
}

/// What was run on a disk: the disk that was handed in, and how the run ended.
#[derive(Drop)]
pub struct OnDisk<D, E> {
    /// The disk that was handed in.
    pub disk: D,
    /// The lines that it told, or why it told none.
    pub ended: Result<Vec<Line>, E>,
}
