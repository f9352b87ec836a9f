//! Why no more is told of a stream.
use erm_follow::Broken;

/// Why no more is told of a stream.
#[derive(Clone, Copy)]
pub(crate) enum Halt {
    /// The next item isn't there yet.
    NotYet {
        /// How many bytes of it are there.
        bytes: usize,
    },
    /// What stands there is no item, whatever follows.
    Bad {
        /// Its place, in words from the stream's begin.
        place: u64,
    },
    /// A commit breaks the greatest safe stamp.
    Broken(Broken),
    /// Memory ran out.
    Memory,
}
