//! The ways to change a word.

/// How one atomic step changes a word. Each step answers the word that it found.
#[derive(Clone, Copy)]
pub enum Change {
    /// Leaves the word: a load.
    Keep,
    /// The word becomes this number: a store, or a swap.
    Set(u64),
    /// This is added, modulo 2^64.
    Add(u64),
    /// The word becomes the new number where it is the old one.
    Exchange { old: u64, new: u64 },
    /// The bits of this number are set.
    Or(u64),
    /// The bits that this number hasn't are cleared.
    And(u64),
    /// The word becomes this number where it is below.
    Raise(u64),
}
