//! Steps of a seat on entries, cells, counters and the ring, and the calls over them: find the head of an object's chain and take
//! its entry, draw a cell and give one back, load rows, store rows and heads. None waits or takes memory.
#![tactic(auto)]

pub mod answer;
mod calls;
mod draws;
mod entries;
mod head_words;
mod laws;
mod own;
mod placed;
mod ring;
mod rows;
mod settles;
mod spare;
mod walks;

pub use calls::{find_head, take};
pub use draws::{draw, give_back, rate};
pub use entries::{claim_entry, install, load_entry};
pub use head_words::store_head;
pub use laws::{
    claims_exclude_others, own_cells_are_alone, reads_stand, rows_stay, spare_lists_fit,
};
pub use own::{add_counter, load_counter};
pub use placed::store_placed;
pub use ring::{clear_ring, decide, load_flushed, load_ring, store_flushed, store_ring};
pub use rows::{copy_row, load_base, load_row, store_row};
pub use settles::{clear_reader, load_readers, load_stamp, store_overwriter, store_succ};
pub use spare::Spare;
pub use walks::{
    load_copied, load_detached, load_rated, load_walked, raise_reader, set_reader, swap_link,
};
