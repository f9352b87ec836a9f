//! Cases of a bank of tellers on a disk in memory, up to crashes of it. They stand apart, so that no crate is proved a second time with its tests.
#![tactic(auto)]

#[cfg(test)]
mod tests;
