//! The flusher: what a world's log gathers is written to a disk, and waited for.
#![tactic(auto)]

mod flusher;
mod laws;
mod stops;
mod world_log;

pub use flusher::Flusher;
pub use laws::writes_leave_fronts;
pub use stops::FlushStop;
pub use world_log::WorldLog;
