//! The words of the table, numbered: one number for each, with no gap.
#![tactic(auto)]

mod laws;
mod limits;
mod numbers;
mod word;

pub use laws::{every_number, numbers_below, one_number};
pub use limits::{
    BACKS_FROM, CELL_HEAD_WORDS, CELL_WORDS, CELLS_FROM, ENTRIES_FROM, RING_FROM, SEAT_WORDS,
    SEATS_FROM, WORDS,
};
pub use numbers::{index, word_of};
pub use word::Word;
