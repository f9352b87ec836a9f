//! Why a piece of a stream wasn't taken.
use std::alloc::AllocError;
use thiserror::Error;

/// Why a piece of a stream wasn't taken.
#[derive(Clone, Copy, Debug, PartialEq, Eq, Error)]
pub enum FeedStop {
    /// What stands at a place of the stream is no item, whatever follows.
    #[error("no item stands at word {place} of the stream")]
    Bad {
        /// The place, in words from the stream's begin.
        place: u64,
    },
    /// Memory ran out. Nothing of the piece was taken.
    #[error("memory ran out")]
    Memory,
}

impl From<AllocError> for FeedStop {
    ghost use Rattle.std.specs.Prelude.{◌≡◌};
    ghost use Rattle.erm_replica_rows.specs.declared.feed_stop.FeedStop.TheVariants.{Memory};

    ghost from_gives = { λ _ stop. stop ≡ Memory };

    fn from(_error: AllocError) -> FeedStop {
        FeedStop::Memory
    }
}
