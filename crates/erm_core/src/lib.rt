//! The core machine as it runs: a state, and one atomic step of one seat at a time.
#![tactic(auto)]

mod laws;
mod need;
mod state;

pub use laws::{rooms_last, rooms_serve};
pub use need::Need;
pub use state::State;
