//! What one seat alone changes.
use crate::{Attempt, OwnCell, Place, Task};
use erm_model::Stamp;
use std::collections::LinkedList;

/// How far the flush seat has come in a flush turn.
#[derive(Clone, Copy)]
pub enum Flushing {
    /// Between turns.
    Still,
    /// It has loaded the tail.
    Tail {
        tail: Stamp,
    },
    /// It gathers from `from` on, below `tail`: the words of the block at `block` are gathered up to `next`, of those up
    /// to `end`. Where `next` is `end` it is between two blocks.
    Gathers {
        tail: Stamp,
        from: Stamp,
        block: Stamp,
        next: Stamp,
        end: Stamp,
    },
    /// What was gathered, up to `to`, is on the disk: the ring's words are cleared up to `next`.
    Clears {
        next: Stamp,
        to: Stamp,
    },
}

/// What one seat alone changes. No value of it is made: programs keep the same in types of their own.
#[derive(Drop)]
pub struct Part {
    pub place: Place,
    pub task: Task,
    /// The number of the last transaction begun.
    pub number: u32,
    /// The current transaction, or a blank one.
    pub current: Attempt,
    /// The transactions that are over, in order.
    pub over: LinkedList<Attempt>,
    /// The tail as last seen.
    pub seen: Stamp,
    /// For each seat the greatest bound for which it was found clear.
    pub clear: LinkedList<u64>,
    /// The spare cells.
    pub spare: LinkedList<OwnCell>,
    /// The run of the log that this opening writes.
    pub run: u64,
    pub flushing: Flushing,
    /// The end of the last block of the log that the flusher has gathered.
    pub gathered_to: Stamp,
    /// The back word: the stamp of the last commit whose successor stamp is less, or 0.
    pub back: Stamp,
}
