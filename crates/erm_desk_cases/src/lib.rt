//! Cases of a desk that takes checkpoints beside two sessions of the word table: what it answers, on a disk in memory that does what it is
//! asked and on one of which a call fails, and what that recovers to. They stand apart, so that no crate is proved a second time with its
//! tests.
#![tactic(auto)]

#[cfg(test)]
mod steps;
#[cfg(test)]
mod tests;
