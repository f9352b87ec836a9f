//! The horizon of a cut, and the cut: the versions of a chain behind the newest one that any seat may still read are cut off, and
//! their cells become spare ones. No call waits or takes memory.
#![tactic(auto)]

mod detaching;
mod finding;
mod horizons;
mod laws;

pub use detaching::{cut, detach};
pub use finding::find_cut;
pub use horizons::horizon;
pub use laws::{cuts_stay_at_newest, horizons_bound_begins, readers_keep_versions};
