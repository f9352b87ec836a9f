//! Why a begin, a settle, a savepoint, a way back or a look at the log is refused.
use erm_model::{Seat, Stamp};

/// Why a transaction doesn't begin. The session stays idle.
#[derive(Clone, Copy, Debug, PartialEq, Eq)]
pub enum BeginStop {
    /// The end of the log, in words, is at or above the place where no transaction begins any more.
    LogEnd { tail: Stamp },
    /// The session has no number left for one more transaction.
    NumbersEnd,
    /// Memory ran out.
    Memory,
}

/// Why a sealed transaction isn't decided yet. It stays sealed, and may be asked again.
#[derive(Clone, Copy, Debug, PartialEq, Eq)]
pub enum Wait {
    /// The ring has no room for its block: all below this place of the log is synced.
    Ring { flushed: Stamp },
    /// The transaction of this seat is sealed with the stamp `seen`, below the own one, and may count for it.
    Seat { seat: Seat, seen: Stamp },
}

/// Why a snapshot isn't safe.
#[derive(Clone, Copy, Debug, PartialEq, Eq)]
pub enum SafeStop {
    /// This seat's session has a transaction or a snapshot that had begun before it: its begin word is `seen`, below the own begin stamp. The
    /// snapshot stays pending, and may be asked again.
    NotYet { seat: Seat, seen: Stamp },
    /// This seat's session has committed a transaction, with this stamp, at or above the own begin stamp, whose turn in the serial order is
    /// before its stamp. The snapshot is over.
    Unsafe { seat: Seat, stamp: Stamp },
}

/// Why a transaction gets no more savepoints. Those that it holds stay.
#[derive(Clone, Copy, Debug, PartialEq, Eq)]
pub enum SaveStop {
    /// It holds as many as a transaction may.
    SavesFull { held: u32 },
    /// Memory ran out.
    Memory,
}

/// A transaction has no savepoint of the number asked for: it holds so many, from number 1 on.
#[derive(Clone, Copy, Debug, PartialEq, Eq)]
pub struct NoSave {
    pub held: u32,
}

/// A commit isn't on the disk yet: all words of the log below `flushed` are.
#[derive(Clone, Copy, Debug, PartialEq, Eq)]
pub struct NotFlushed {
    pub flushed: Stamp,
}
