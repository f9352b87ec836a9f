//! What a crash leaves of a disk on which a world's log goes on: the moments of a whole run.
#![tactic(auto)]

mod laws;

pub use laws::{
    checkpoints_below_keep, checkpoints_keep, flushes_keep, held_logs_stay, kept_images_may_open,
    kept_logs_begin, kept_logs_go_on, kept_logs_stay, moments_go_on, opened_logs_are_held,
    openings_keep,
};
