//! What all sessions were answered, put together in the order of the script.
#![tactic(auto)]

mod merged;

pub use merged::merge;
