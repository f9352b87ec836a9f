//! What calls answer.
use erm_model::Stamp;

/// The version that a walk came to.
#[derive(Clone, Copy, Debug, PartialEq, Eq)]
pub struct Reached {
    /// The cell that holds it.
    pub cell: u32,
    /// Its stamp.
    pub stamp: Stamp,
}
