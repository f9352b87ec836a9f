//! A desk that takes checkpoints too: a disk, the pass with the flush seat, the turns that write what is decided of the log to the disk, and
//! those that save the rows as of a place of it, below what is flushed. It stands under a lock, so that any thread may take a turn.
#![tactic(auto)]

mod desk;
mod flushing;
mod laws;
mod saving;
mod seat;

pub use desk::CheckpointDesk;
pub use laws::{checkpoint_desks_are_desks, checkpoint_desks_take_in};
pub use seat::StepSeat;
