//! The sessions of a world that one caller has: each is a session beside the others, of which none goes on while it is called, and may have
//! snapshots that only read where the world's sessions may.
#![tactic(auto)]

mod laws;
mod lone;
mod others;
mod snapshots;

pub use laws::{worlds_may_end_as_they_stand, worlds_move_on};
pub use lone::LoneSession;
pub use others::Others;
