//! Entries of objects, and the calls of a seat on them: load one, find the head of an object's chain for a read, claim an object,
//! install its new version, release it. None waits or takes memory.
#![tactic(auto)]

pub mod answer;
mod claiming;
mod entries;
mod installing;
mod laws;
mod loading;
mod releasing;

pub use claiming::{claim, unclaim};
pub use entries::Entry;
pub use installing::install;
pub use laws::{claimed_entries_are_spelled, entries_tell_their_owners, walks_lead_to_snapshots};
pub use loading::{enter, load};
pub use releasing::release;
