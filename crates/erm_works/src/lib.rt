//! What the sessions of a script did at once, put together: an execution of the whole script. It speaks of no worker and no thread, only
//! of what is known of each session in the world in which all ended.
#![tactic(auto)]

mod laws;

pub use laws::{
    works_are_a_cut_run, works_are_a_run, works_are_a_starved_run, works_may_be_merged,
};
