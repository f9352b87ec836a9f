//! What a stream has, and why nothing is answered of it.
use erm_block::Block;
use erm_ckpt::Slot;
use erm_model::Stamp;
use thiserror::Error;

/// What is read of a stream.
#[derive(Drop)]
pub enum Item {
    /// The checkpoint in front: the place of the log as of which its rows are, and the run before it, which is 0 at the start of a log.
    Base(Slot),
    /// A block of the log.
    Block(Block),
}

/// Where the log of a stream goes on.
#[derive(Clone, Copy)]
pub struct LogPlace {
    /// The place: that of the next block.
    pub at: Stamp,
    /// The run of the last block before it, or of the checkpoint; 0 where there is none.
    pub run: u64,
}

/// Why nothing is answered.
#[derive(Clone, Copy, Debug, PartialEq, Eq, Error)]
pub enum StreamStop {
    /// The next item isn't there yet.
    #[error("of the next item only {bytes} bytes are there")]
    NotYet {
        /// How many bytes of it are there.
        bytes: usize,
    },
    /// What stands there is no item, whatever follows.
    #[error("no item stands at word {place} of the stream")]
    Bad {
        /// Its place, in words from the stream's begin.
        place: u64,
    },
}
