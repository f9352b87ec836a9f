//! Checkpoint slots: what they are, their one spelling in words, reading them, and what an image of a disk recovers to.
#![tactic(auto)]

mod encode;
mod entry;
mod laws;
mod read;
mod rules;
mod slot;

pub use encode::encode_slot;
pub use laws::{
    best_slots_are_of_best_checkpoints, files_have_the_slots_of_their_words, next_first_is_low,
    one_checkpoint, one_recovery, one_slot, put_slots_are_best, read_slots_show, recovery_goes_on,
    recovery_stays, slots_are_bounded, slots_recover, torn_slots_show,
};
pub use read::{RowTest, clear_rows, read_slot};
pub use rules::Checkpoints;
pub use slot::{
    LOG_START, SLOT_HEAD, SLOT_WORDS, Slot, Slots, best_of, is_slot, next_first, other_of,
    put_slot, removal_end, segment_of,
};
