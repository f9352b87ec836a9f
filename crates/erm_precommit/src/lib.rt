//! Settle on the words that threads share: a sealed transaction passes the versions that it read and overwrote, up to the first seat
//! that isn't ready, and answers the two numbers of its exclusion window. None of the calls waits or takes memory.
#![tactic(auto)]

pub mod answer;
mod laws;
mod pre;
mod reads;
mod settling;
mod writes;

pub use answer::{Settled, Wait};
pub use laws::{
    one_of_two_is_ready, ready_beside_a_commit_is_closed, skewed_commits_exclude_one_another,
    snapshots_of_one_begin_agree,
};
pub use pre::{KeptClaim, KeptClaims, KeptRead, KeptReads, Pre};
pub use settling::settle;
