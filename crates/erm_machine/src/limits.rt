//! The limits of the machine: the engine's, and its seats.
use erm_model::Seat;

/// Seats from 1 to this one are sessions.
pub const SESSIONS: Seat = erm_model::SESSIONS;

/// The seat of the flusher, behind the sessions'. It has a begin word, for checkpoints.
pub const FLUSH_SEAT: Seat = SESSIONS + 1;

/// One above the last seat that has words.
pub const ANNOUNCERS: Seat = FLUSH_SEAT + 1;

/// How many objects there are.
pub const OBJECT_LIMIT: u32 = erm_model::OID_LIMIT;

/// The most cells that there may be; how many there are an opening says.
pub const MOST_CELLS: u32 = erm_model::MOST_CELLS;

/// The most versions that a transaction reads.
pub const READ_LIMIT: usize = erm_model::READ_LIMIT;

/// The most objects that a transaction claims.
pub const WRITE_LIMIT: usize = erm_model::WRITE_LIMIT;

/// How many words of the log the ring holds.
pub const RING_WORDS: u64 = erm_model::RING_WORDS;

/// The least size of a block of the log, in words.
pub const LEAST_BLOCK: u64 = erm_model::LEAST_BLOCK;

/// The greatest size of a block of the log, in words.
pub const GREATEST_BLOCK: u64 = erm_model::GREATEST_BLOCK;

/// No transaction begins where the tail is at or above this place of the log.
pub const STOP: u64 = erm_model::STOP;

/// The log ends below this place.
pub const LOG_END: u64 = erm_model::LOG_END;

/// The last number of a session's transactions.
pub const LAST_NUMBER: u32 = erm_model::LAST_NUMBER;
