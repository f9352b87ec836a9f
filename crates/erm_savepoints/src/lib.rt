//! What a session keeps to go back to its savepoints, in room that is taken when it is made.
#![tactic(auto)]

mod savepoint;
mod saves;

pub use saves::Saves;
