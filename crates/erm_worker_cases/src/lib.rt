//! Workers of the sessions of one world, of which each works while the others stand.
#![tactic(auto)]

mod alone;
mod lines;
#[cfg(test)]
mod tests;

pub use alone::{close, work};
pub use lines::are_of;
