//! Why a call on the rows of a transaction is refused.
use crate::{Seat, Stamp};

/// A refusal. After `Owned`, `Newer` and `Excluded` the transaction has ended: it is aborted. After the others it goes
/// on, what it reads and what it has written being as before.
#[derive(Clone, Copy, PartialEq, Eq)]
pub enum RowStop {
    /// To a read: the transaction of this seat owns the object and is sealing, which `seen` 1 says, or is sealed with
    /// the stamp `seen`, below the own begin. It may be asked again when that one is decided.
    NotYet { seat: Seat, seen: Stamp },
    /// To a read: as many objects are registered as a transaction may read.
    ReadsFull,
    /// To a claim or write: the transaction of this seat and number owns the object.
    Owned { seat: Seat, number: u32 },
    /// To a claim or write: the object has a version of this stamp, not below the own begin.
    Newer { stamp: Stamp },
    /// To a claim or write: as many objects are claimed as a transaction may write.
    WritesFull,
    /// To a claim or write: no cell is left for the new version, so many being drawn.
    CellsFull { drawn: u64 },
    /// To a call for a new object: none is left, so many being drawn.
    OidsFull { drawn: u64 },
    /// To a read, claim or write: the exclusion window known so far is closed, `succ <= pred`.
    Excluded { succ: Stamp, pred: Stamp },
    /// Memory ran out.
    Memory,
}
