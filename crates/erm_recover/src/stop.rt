//! Why a recovery stops.
use erm_outside::Failed;
use std::alloc::AllocError;
use thiserror::Error;

/// Why a disk was not recovered.
#[derive(Clone, Copy, Debug, PartialEq, Eq, Error)]
pub enum RecoverStop {
    /// The disk failed.
    #[error("the disk failed")]
    DiskFault,
    /// No slot checks, a slot's file has bytes, and the log's first segment has none.
    #[error("there are bytes on the disk, but no place to start from")]
    NoBase,
    /// Memory ran out.
    #[error("memory ran out")]
    Memory,
}

impl From<Failed> for RecoverStop {
    ghost use Rattle.std.specs.Prelude.{◌≡◌};
    ghost use Rattle.erm_recover.specs.declared.stop.RecoverStop.TheVariants.{DiskFault};

    ghost from_gives = { λ _ stop. stop ≡ DiskFault };

    fn from(_error: Failed) -> RecoverStop {
        RecoverStop::DiskFault
    }
}

impl From<AllocError> for RecoverStop {
    ghost use Rattle.std.specs.Prelude.{◌≡◌};
    ghost use Rattle.erm_recover.specs.declared.stop.RecoverStop.TheVariants.{Memory};

    ghost from_gives = { λ _ stop. stop ≡ Memory };

    fn from(_error: AllocError) -> RecoverStop {
        RecoverStop::Memory
    }
}
