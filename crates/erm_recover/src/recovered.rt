//! What is recovered of a disk.
use erm_ckpt::Slots;
use erm_model::{Commit, Row, Stamp};

/// What is recovered of a disk.
#[derive(Drop)]
pub struct Recovered {
    /// The rows, one for each object that there may be.
    pub rows: Vec<Row>,
    /// The place of the log where its list ends: from 8 to 2^61.
    pub stamp: Stamp,
    /// The run of the last block before that, or of the checkpoint there; 0 where there is none.
    pub run: u64,
    /// The place of the log where recovery began: the checkpoint's, or 8.
    pub base: Stamp,
    /// The commits from the base on, in order.
    pub commits: Vec<Commit>,
    /// What the slots say, where they check.
    pub slots: Slots,
}
