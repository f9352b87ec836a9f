//! The limits of the engine, each in this place alone.
use crate::{Oid, ROW_WORDS, Seat, Stamp};

/// How many objects there may be: their numbers are below.
pub const OID_LIMIT: Oid = 16_384;

/// How many tables there are: their numbers, which are those of their roots too, are below.
pub const TABLES: u8 = 16;

/// The seats of sessions are from 1 to this one.
pub const SESSIONS: Seat = 48;

/// The most objects that a transaction registers as read.
pub const READ_LIMIT: usize = 512;

/// The most objects that a transaction claims.
pub const WRITE_LIMIT: usize = 128;

/// The most savepoints that a transaction holds.
pub const SAVES: usize = 8;

/// The most objects that a put makes.
pub const PUT_OBJECTS: usize = 14;

/// The most rows that a put claims and sets.
pub const PUT_ROWS: usize = 26;

/// How many cells the table of words has.
pub const TABLE_CELLS: u32 = 65_536;

/// The most cells that an engine may have: their numbers have 24 bits.
pub const MOST_CELLS: u32 = 16_777_216;

/// How many words of the log the ring holds.
pub const RING_WORDS: u64 = 32_768;

/// How many words of the log a segment has.
pub const SEGMENT_WORDS: u64 = 65_536;

/// The least size of a block of the log, in words: all but its rows.
pub const LEAST_BLOCK: u64 = 5;

/// The greatest size of a block of the log, in words: of one with as many whole rows as there may be.
pub const GREATEST_BLOCK: u64 = LEAST_BLOCK + (1 + ROW_WORDS as u64) * WRITE_LIMIT as u64;

/// No transaction begins where the tail is at or above this place of the log.
pub const STOP: Stamp = 1_152_921_504_606_846_976;

/// Where the log ends: no block ends behind it.
pub const LOG_END: Stamp = 2_305_843_009_213_693_952;

/// The last run of the engine on one log: runs have 44 bits.
pub const LAST_RUN: u64 = 17_592_186_044_415;

/// The last number of a session's transactions.
pub const LAST_NUMBER: u32 = 4_294_967_295;
