//! What settle answers.
use erm_model::{Seat, Stamp};

/// For whom, or for what, a settle waits. It may be called again, and begins anew then.
#[derive(Clone, Copy, Debug, PartialEq, Eq)]
pub enum Wait {
    /// The ring has no room for the block: this place flushed was found.
    Ring { flushed: Stamp },
    /// The seat owned the entry of a version read that is its object's head, or was registered as a reader of a version overwritten,
    /// and is sealing, which `seen` 1 says, or is sealed with the stamp `seen`, below the own one.
    Seat { seat: Seat, seen: Stamp },
}

/// What a settle has come to.
#[derive(Clone, Copy, Debug, PartialEq, Eq)]
pub enum Settled {
    /// All versions are passed: these are the ends of the exclusion window. The transaction commits where `pred` is below `succ`.
    Ready { succ: Stamp, pred: Stamp },
    /// Something isn't ready.
    Wait(Wait),
}

/// For whom a settle waits while it passes versions.
#[derive(Clone, Copy, Debug)]
pub(crate) struct SeatWait {
    pub seat: Seat,
    pub seen: Stamp,
}
