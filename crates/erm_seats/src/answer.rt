//! What the calls answer.
use erm_model::{Seat, Stamp};

/// Why a session can't begin. All but the tail that it has seen is as before.
#[derive(Clone, Copy, Debug, PartialEq, Eq)]
pub enum BeginStop {
    /// The tail, loaded first, was at or above 2^60.
    LogEnd { tail: Stamp },
}

/// What a look at another seat found.
#[derive(Clone, Copy, Debug, PartialEq, Eq)]
pub enum Look {
    /// The seat has no unfinished range below the bound, and never will have one.
    Clear,
    /// The seat is sealing, which `seen` 1 says, or is sealed with the stamp `seen`, below the bound.
    NotYet { seat: Seat, seen: Stamp },
}

/// Why a snapshot isn't known to be safe.
#[derive(Clone, Copy, Debug, PartialEq, Eq)]
pub enum SafeStop {
    /// The begin word of this session is `seen`, below the begin stamp: it has something in progress that had begun before.
    NotYet { seat: Seat, seen: Stamp },
    /// The back word of this session is `stamp`, not below the begin stamp: it has committed a transaction whose turn is before its stamp.
    Unsafe { seat: Seat, stamp: Stamp },
}
