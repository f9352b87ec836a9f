//! How far a seat has come in a call of several steps.
use crate::version::VersionAt;
use erm_model::{Oid, Seat, Stamp};

/// How far a seat has come in a call of several steps.
#[derive(Clone, Copy, Debug)]
pub enum Task {
    /// Between calls.
    Rest,

    /// Reading: the entry has another owner, who is to be looked at.
    Owned {
        oid: Oid,
        owner: Seat,
    },
    /// That owner was found clear: the entry is to be loaded once more.
    Cleared {
        oid: Oid,
    },
    /// A version is in hand: its stamp is to be loaded. `head` is the entry where the version is its head.
    Walks {
        version: VersionAt,
        head: Option<u64>,
    },
    /// Its stamp isn't below the begin stamp: its link is to be loaded.
    Passed {
        version: VersionAt,
    },
    /// Its stamp is below the begin stamp: it may be registered or, at the head, claimed.
    Found {
        version: VersionAt,
        stamp: Stamp,
        head: Option<u64>,
    },
    /// The own bit is set: the overwriter's stamp is to be loaded.
    Registered {
        version: VersionAt,
    },
    /// That stamp isn't 0: the overwriter's successor stamp is to be loaded.
    Overtaken {
        version: VersionAt,
        overwriter: Stamp,
    },
    /// The version is registered and rated: its row may be loaded.
    Rated {
        version: VersionAt,
    },
    /// The counter of objects was seen below its limit: it is to be raised.
    Numbers,

    /// A snapshot looks whether it is safe: the begin word of this session is to be loaded. Those below are passed.
    Surveys {
        next: Seat,
    },
    /// That begin word was 0 or at least the begin stamp: the back word of this session is to be loaded.
    Behind {
        next: Seat,
    },
    /// All other sessions are passed: the snapshot is safe.
    Safe,
    /// A safe snapshot has a version in hand: its stamp is to be loaded.
    SafeWalks {
        version: VersionAt,
    },
    /// Its stamp isn't below the begin stamp: its link is to be loaded.
    SafePassed {
        version: VersionAt,
    },
    /// Its stamp is below the begin stamp: its row may be loaded.
    SafeFound {
        version: VersionAt,
    },

    /// Claiming: the entry is the own one, with this version for its head. The tail is to be loaded.
    Claimed {
        version: VersionAt,
    },
    /// `least` is the least of the tail and of the begin words below seat `next`, whose word is to be loaded.
    Horizon {
        version: VersionAt,
        least: Stamp,
        next: Seat,
    },
    /// The horizon is known. A version is in hand: its stamp is to be loaded.
    CutWalks {
        version: VersionAt,
        horizon: Stamp,
    },
    /// Its stamp isn't below the horizon: its link is to be loaded.
    CutPassed {
        version: VersionAt,
        horizon: Stamp,
    },
    /// Its stamp is below the horizon: its link is to be swapped with 0.
    CutFound {
        version: VersionAt,
        horizon: Stamp,
    },
    /// A version was cut off: its link is to be loaded, and its cell becomes a spare one.
    Detaches {
        version: VersionAt,
    },
    /// The tail of the chain is cut. The claim wants a cell.
    Draws,
    /// The counter of cells was seen below its limit: it is to be raised.
    Pool,
    /// The claim has its cell: the reader stamp of the version overwritten is to be loaded.
    Fetched,
    /// There was no cell: the entry is to be released.
    Refused,
    /// The row of the version overwritten is copied into the own cell, up to this word.
    Copies {
        word: u8,
    },
    /// A row is written into the own cell of this claim, up to this word.
    Writes {
        claim: usize,
        word: u8,
    },

    /// Settling: so many of the versions read and of those overwritten are passed.
    Settles {
        reads: usize,
        writes: usize,
    },
    /// The version read is its object's head, and this other seat owns the entry.
    ReadOwned {
        read: usize,
        owner: Seat,
    },
    /// Nobody who is undecided below the own stamp overwrites the version read: its overwriter's stamp is to be loaded.
    ReadClear {
        read: usize,
    },
    /// That stamp is below the own one: the overwriter's successor stamp is to be loaded.
    ReadOvertaken {
        read: usize,
        overwriter: Stamp,
    },
    /// These bits of the other readers of the version overwritten are left to be looked at.
    ReadersLeft {
        write: usize,
        bits: u64,
    },
    /// None of them is undecided below the own stamp: the creator's stamp is to be loaded.
    WriteClear {
        write: usize,
    },
    /// The reader stamp is to be loaded.
    WriteMade {
        write: usize,
    },
    /// So many words of the block behind its header are stored.
    Fills {
        words: u64,
    },

    /// Ending: so many reader stamps are raised, so many claims are over, so many steps of the next install are taken,
    /// so many own reader bits are cleared.
    Ends {
        raised: usize,
        ended: usize,
        step: u8,
        cleared: usize,
    },
}
