//! What a transaction leaves in the history, for definitions and laws: of these a program need make `Commit` alone.
use crate::{Oid, Row, Seat, Stamp};
use std::collections::LinkedList;

/// A version that a transaction read.
#[derive(Drop)]
pub struct VersionRead {
    pub oid: Oid,
    /// The commit stamp of the transaction that made the version, or 0 for the opening's.
    pub stamp: Stamp,
    pub row: Row,
}

/// A version that a transaction made by overwriting another. A claimed object is written, also where its row stayed.
#[derive(Drop)]
pub struct VersionWritten {
    pub oid: Oid,
    /// The stamp of the version overwritten, or 0 for the opening's.
    pub stamp: Stamp,
    /// The row of the version overwritten, as the claim found it.
    pub base: Row,
    /// The row of the version made.
    pub row: Row,
    /// Whether a write set the row; else it is that of the version overwritten.
    pub is_set: bool,
}

/// A committed transaction as the history has it.
#[derive(Drop)]
pub struct TransactionRecord {
    pub seat: Seat,
    /// The transaction's number in its session, from 1.
    pub number: u32,
    /// The begin stamp: it reads what was committed below.
    pub begin: Stamp,
    /// The commit stamp.
    pub stamp: Stamp,
    /// The successor stamp that it carries.
    pub succ: Stamp,
    /// The predecessor stamp that it carries.
    pub pred: Stamp,
    /// In order of first read, each object once.
    pub reads: LinkedList<VersionRead>,
    /// In order of first claim, each object once.
    pub writes: LinkedList<VersionWritten>,
    /// The objects that it made.
    pub made: LinkedList<Oid>,
}

/// A commit by its name and the stamps that place it in the serial order.
#[derive(Clone, Copy)]
pub struct Commit {
    pub seat: Seat,
    pub number: u32,
    pub stamp: Stamp,
    pub succ: Stamp,
}
