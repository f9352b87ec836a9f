//! What a look at the log answers.
use erm_model::{Seat, Stamp};

/// What is gathered of the log, from the place on below which all is synced. Places are in words.
#[derive(Clone, Copy, Debug, PartialEq, Eq)]
pub enum Gathered {
    /// Nothing: the log ends at this place.
    Empty { at: Stamp },
    /// Nothing: the transaction whose block begins at this place isn't decided yet.
    Unfilled { at: Stamp },
    /// So many words from this place on, one at least: those of whole blocks.
    Words { at: Stamp, count: u64 },
}

/// A row isn't known yet: the transaction of this seat is sealed with the stamp `seen`, and may have written it.
#[derive(Clone, Copy, Debug, PartialEq, Eq)]
pub struct SeatWait {
    pub seat: Seat,
    pub seen: Stamp,
}
