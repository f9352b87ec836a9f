//! The desk: a disk, the pass with the flush seat, and the turns that write what is decided of the log to the disk. It stands under a
//! lock, so that any thread may take a turn.
#![tactic(auto)]

mod desk;
mod laws;
mod naming;
mod seat;

pub use desk::{Desk, Stopped};
pub use laws::{desks_take_in, first_passes_are_unflushed};
pub use naming::Naming;
pub use seat::FlushSeat;
