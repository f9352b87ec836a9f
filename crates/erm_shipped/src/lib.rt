//! What safe stamps promise of logs that scripts wrote: no commit at or behind a place where a run opened stands in the serial order before the commits below.
#![tactic(auto)]

mod laws;

pub use laws::{
    commits_stay_behind_the_opening, runs_at_once_keep_safe_stamps, runs_keep_safe_stamps,
    safe_stamps_divide,
};
