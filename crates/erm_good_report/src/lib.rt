//! What a report owes to its script, for any number of sessions: definitions, apart from every program that reads the one or
//! writes the other, and their laws.
#![tactic(auto)]

mod laws;

pub use laws::{reports_are_determined, stamps_told_are_in_reach, write_skew_is_excluded};
