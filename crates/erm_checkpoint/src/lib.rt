//! A checkpoint: a slot is written and waited for, and then the segments that are needed no more are removed.
#![tactic(auto)]

mod checkpointer;
mod laws;
mod reading;
mod removing;
mod saving;
mod stops;

pub use checkpointer::Checkpointer;
pub use laws::{
    checkpoints_below_hold_logs, checkpoints_hold_logs, flushed_logs_are_held, flushes_recover,
    removals_spare_the_log, slots_are_saved,
};
pub use reading::{read_pinned, read_rows};
pub use removing::remove_segments;
pub use saving::{save, save_rows};
pub use stops::CheckpointStop;
