//! Where a seat stands between two of its steps.
use erm_model::Stamp;

/// Where a seat stands in the life of a transaction. The seat's begin word and state word follow from it.
#[derive(Clone, Copy)]
pub enum Place {
    /// Nobody has the seat.
    Vacant,
    /// No transaction.
    Idle,
    /// It has loaded the tail, to announce it.
    Begun { tail: Stamp },
    /// Its begin word is the tail that it loaded.
    Announced { tail: Stamp },
    /// It has loaded the tail once more, its begin stamp: it reads and claims, or ends without a range. The begin word of
    /// a snapshot is its begin stamp.
    Active { tail: Stamp },
    /// Its state word is 1.
    Sealing { tail: Stamp },
    /// It has drawn its range of the log, at `stamp`. Its state word is still 1.
    Drawn { tail: Stamp, stamp: Stamp },
    /// Its state word is its stamp.
    Sealed { tail: Stamp, stamp: Stamp },
    /// Its block's header is stored, and the transaction decided.
    Decided { tail: Stamp, stamp: Stamp },
    /// Its begin word is 0 again. Its state word is still its stamp.
    Leaving { stamp: Stamp },
}
