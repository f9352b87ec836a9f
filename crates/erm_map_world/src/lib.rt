//! The smallest world of sessions: one session over rows in memory, whose transactions commit one after another. The contract's own
//! tests run on it.
#![tactic(auto)]

mod map_world;
mod safe;
mod works;

pub use map_world::MapWorld;
pub use works::{MapDone, MapWork};
