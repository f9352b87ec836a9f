//! What a call of several steps needs room for.
use erm_model::Oid;

/// What a call of several steps needs room for.
#[derive(Clone, Copy)]
pub enum Need {
    /// A transaction: its begin, its seal with a block of a row for each claim, its settle and its end.
    Begin,
    /// One more read.
    Read,
    /// One more claim on the object: the claim, the object's version, the words of its row in the block, the cells that its cut
    /// makes spare, and its own cell, where that is given back.
    Claim { oid: Oid },
    /// One more object that is made.
    Make,
}
