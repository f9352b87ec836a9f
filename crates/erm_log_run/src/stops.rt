//! Why a run ends before its last line.
ghost use Rattle.erm_log_run.specs.declared.stops.LineStop.TheVariants as line_stop;
ghost use Rattle.erm_log_run.specs.declared.stops.RunStop.TheVariants as run_stop;
ghost use Rattle.std.specs.Prelude.{◌≡◌};

use erm_report::Line;
use std::alloc::{AllocError, AllocFailed};
use std::fmt;
use thiserror::Error;

/// Why a line isn't answered.
#[derive(Clone, Copy, Debug, PartialEq, Eq, Error)]
pub enum LineStop {
    /// The disk failed.
    #[error("the disk failed")]
    DiskFault,
    /// Memory ran out.
    #[error("memory ran out")]
    Memory,
}

impl From<AllocError> for LineStop {
    ghost from_gives = { λ _ stop. stop ≡ line_stop.Memory };

    fn from(_error: AllocError) -> LineStop {
        LineStop::Memory
    }
}

impl<T: Drop> From<AllocFailed<T>> for LineStop {
    ghost from_gives = { λ _ stop. stop ≡ line_stop.Memory };

    fn from(_failed: AllocFailed<T>) -> LineStop {
        LineStop::Memory
    }
}

/// Why a run ended before its last line.
#[derive(Drop, Error)]
pub enum RunStop {
    /// The disk failed: these are the lines so far, which end with that of the fault.
    #[error("the disk failed")]
    DiskFault(Vec<Line>),
    /// Memory ran out.
    #[error("memory ran out")]
    Memory,
}

/// The sentence: the lines have a text of their own.
impl fmt::Debug for RunStop {
    fn fmt<W: fmt::Write>(&self, f: &mut fmt::Formatter<W>) -> fmt::Result {
        write!(f, "{self}")
    }
}

impl From<AllocError> for RunStop {
    ghost from_gives = { λ _ stop. stop ≡ run_stop.Memory };

    fn from(_error: AllocError) -> RunStop {
        RunStop::Memory
    }
}
