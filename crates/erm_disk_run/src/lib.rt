//! Runs on a disk: what is found on it is opened, a script is run or a checkpoint taken, and a crash at any moment leaves what was promised.
#![tactic(auto)]

mod checkpoint;
mod laws;
mod log;
mod opening;
mod run;
mod stops;
mod worlds;

pub use checkpoint::checkpoint_on_disk;
pub use laws::{
    greater_places_are_reached_later, next_runs_keep_what_was_acknowledged,
    stopped_runs_may_be_followed,
};
pub use log::{OpenedLog, open_log_on_disk};
pub use run::{run_in_lists, run_on_disk};
pub use stops::{DiskStop, OnDisk, RunStop};
