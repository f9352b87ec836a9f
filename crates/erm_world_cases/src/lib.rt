//! Cases of worlds of sessions: of the calls of a world that is a map, and of the tree's calls over worlds in lists, where sessions that read and
//! change one table stand in each other's way.
#![tactic(auto)]

#[cfg(test)]
mod map_world;
mod sessions;
#[cfg(test)]
mod tests;

pub use sessions::{answer, begin, seal, settle};
