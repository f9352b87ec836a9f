//! What calls answer.
use erm_model::{Seat, Stamp};

/// A look found this seat not clear: it is sealing, which `seen` 1 says, or sealed with the stamp `seen`, below the bound.
#[derive(Clone, Copy, Debug, PartialEq, Eq)]
pub struct SeatWait {
    pub seat: Seat,
    pub seen: Stamp,
}
