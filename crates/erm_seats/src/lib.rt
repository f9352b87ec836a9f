//! Calls of a seat on the words that threads share: begin, seal, and a look at another seat; the begin of a snapshot that only reads, and
//! its look at the other sessions. None waits or takes memory.
#![tactic(auto)]

pub mod answer;
mod life;
mod looking;
mod snapshots;

pub use life::{begin_steps, seal_steps};
pub use looking::look;
pub use snapshots::{begin_safe_steps, survey};
