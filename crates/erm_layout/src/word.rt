//! The words of the table.
use erm_machine::{CellWord, Counter};
use erm_model::{Oid, Seat};

/// A word of the table.
#[derive(Clone, Copy, PartialEq, Eq)]
pub enum Word {
    /// The tail of the log.
    Tail,
    /// The place of the log below which all is on the disk.
    Flushed,
    /// How many object numbers or cells were drawn.
    Counter(Counter),
    /// A seat's begin word.
    Begin(Seat),
    /// A seat's state word.
    State(Seat),
    /// An object's entry.
    Entry(Oid),
    /// A word of a cell.
    Cell { cell: u32, word: CellWord },
    /// A place of the ring.
    Ring(u64),
    /// A session's back word.
    Back(Seat),
}
