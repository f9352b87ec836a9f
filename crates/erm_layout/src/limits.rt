//! Where the parts of the table begin, and how many words it has.
use erm_machine::{ANNOUNCERS, OBJECT_LIMIT, RING_WORDS, SESSIONS};
use erm_model::{ROW_WORDS, TABLE_CELLS};

/// How many words a seat has among the seats' words: its begin word and its state word.
pub const SEAT_WORDS: usize = 2;

/// How many words a cell has before its row.
pub const CELL_HEAD_WORDS: usize = 6;

/// How many words a cell has.
pub const CELL_WORDS: usize = CELL_HEAD_WORDS + ROW_WORDS;

/// The number of the first seat's first word. Below are the tail, the place flushed and the two counters.
pub const SEATS_FROM: usize = 4;

/// The number of the first entry.
pub const ENTRIES_FROM: usize = SEATS_FROM + SEAT_WORDS * (ANNOUNCERS as usize - 1);

/// The number of the first cell's first word.
pub const CELLS_FROM: usize = ENTRIES_FROM + OBJECT_LIMIT as usize;

/// The number of the ring's first word.
pub const RING_FROM: usize = CELLS_FROM + CELL_WORDS * TABLE_CELLS as usize;

/// The number of the first session's back word.
pub const BACKS_FROM: usize = RING_FROM + RING_WORDS as usize;

/// How many words the table has: all numbers are below.
pub const WORDS: usize = BACKS_FROM + SESSIONS as usize;
