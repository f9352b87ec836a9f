//! What may happen: one atomic step of one seat.
use crate::version::{CellWord, VersionAt};
use erm_model::{Oid, Seat, Stamp};

/// What the tail is loaded for.
#[derive(Clone, Copy)]
pub enum TailUse {
    /// A begin, for its first or second load.
    Begin,
    /// The horizon of a cut.
    Horizon,
    /// A flush turn.
    Gather,
}

/// A counter.
#[derive(Clone, Copy, PartialEq, Eq)]
pub enum Counter {
    /// How many object numbers were drawn.
    Objects,
    /// How many cells were drawn.
    Cells,
}

/// A kind of atomic step, with the word that it meets and the number that it stores.
#[derive(Clone, Copy)]
pub enum Kind {
    LoadTail {
        purpose: TailUse,
    },
    /// Adds to the tail: draws a range of the log.
    AddTail {
        size: u64,
    },
    StoreBegin {
        value: Stamp,
    },
    StoreState {
        value: Stamp,
    },
    LoadBegin {
        seat: Seat,
    },
    /// Loads a seat's state word and compares it with a bound.
    LoadState {
        seat: Seat,
        bound: Stamp,
    },
    /// Makes a vacant seat an idle one.
    Split {
        seat: Seat,
    },
    /// Takes in another seat, which tells what it has seen.
    Join {
        seat: Seat,
    },

    LoadEntry {
        oid: Oid,
    },
    /// Exchanges an entry for one with the own seat and number, where it still is the one seen.
    Claim {
        oid: Oid,
        seen: u64,
        number: u32,
    },
    /// Stores an entry without owner: installs a version, or releases the entry with its old head.
    Install {
        oid: Oid,
        head: u32,
    },
    /// Loads the stamp, the link or a word of the row of an installed version.
    LoadCell {
        version: VersionAt,
        word: CellWord,
    },
    /// Stores a word of the own cell of a claim.
    StoreCell {
        claim: usize,
        cell: u32,
        word: CellWord,
        value: u64,
    },
    LoadCounter {
        counter: Counter,
    },
    AddCounter {
        counter: Counter,
    },

    /// Sets the own reader bit: the version counts as read.
    SetReader {
        version: VersionAt,
    },
    ClearReader {
        version: VersionAt,
    },
    LoadReaders {
        version: VersionAt,
    },
    /// Loads the creator's stamp, the reader stamp, the overwriter's stamp or its successor stamp.
    LoadStamp {
        version: VersionAt,
        word: CellWord,
    },
    RaiseReader {
        version: VersionAt,
        value: Stamp,
    },
    StoreSucc {
        version: VersionAt,
        value: Stamp,
    },
    StoreOverwriter {
        version: VersionAt,
        value: Stamp,
    },

    /// Stores a word of the own block behind its header.
    StoreRing {
        at: Stamp,
        value: u64,
    },
    /// Stores the header of the own block: the decision.
    Decide {
        at: Stamp,
        header: u64,
    },
    LoadRing {
        at: Stamp,
    },
    ClearRing {
        at: Stamp,
    },
    StoreFlushed {
        value: Stamp,
    },
    LoadFlushed,

    /// Swaps a link with 0: cuts a chain.
    SwapLink {
        version: VersionAt,
    },
    /// Loads the link of a version that was cut off.
    LoadDetached {
        version: VersionAt,
    },

    /// Stores the own back word: the stamp of a commit whose successor stamp is less.
    StoreBack {
        value: Stamp,
    },
    /// Loads a session's back word.
    LoadBack {
        seat: Seat,
    },

    /// The row of a claim is again that of the version overwritten, which its own cell has: no write has set it. Meets no word.
    Unset {
        claim: usize,
    },
}

/// A step of a seat.
#[derive(Clone, Copy)]
pub struct Event {
    pub seat: Seat,
    pub kind: Kind,
}

/// What a step answers.
#[derive(Clone, Copy, Debug)]
pub enum Answer {
    Done,
    /// The word that was found.
    Word(u64),
    /// The step isn't to be taken there, and nothing changed.
    Failed,
}
