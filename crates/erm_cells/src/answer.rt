//! What calls answer.
use erm_model::Stamp;

/// What was found at the head of an object's chain.
#[derive(Clone, Copy, Debug)]
pub enum Head {
    /// The entry has an owner, this seat or another: no version is loaded.
    Owned { entry: u64 },
    /// The entry has no owner, and its head has this stamp.
    Walked { entry: u64, stamp: Stamp },
}
