//! A stream of a log, read as it comes, in pieces: a checkpoint, and then the blocks behind it.
#![tactic(auto)]

mod front;
mod item;
mod laws;
mod rows;
mod size;
mod stream;

pub use front::{FoundItem, Lack, find};
pub use item::{Item, LogPlace, StreamStop};
pub use laws::{cuts_do_not_matter, fronts_are_one, fronts_stay, parts_are_announced};
pub use stream::{ITEM_WORDS, Stream, forget_read};
