//! The world in lists as a world of sessions, with the savepoints of their transactions.
#![tactic(auto)]

mod log_world;
mod plain;
mod safe_world;
mod savepoints;
mod world;

pub use plain::Plain;
pub use savepoints::Savepoints;
