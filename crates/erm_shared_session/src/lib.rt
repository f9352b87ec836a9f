//! A session over the words that threads share, beside others that go on at any time: with the pass of its own seat alone it knows its own part, and
//! what it met of others stays so in each world in which all may end. No call waits, takes memory or takes a lock.
#![tactic(auto)]

mod laws;
mod met;
mod session;
mod snapshots;

pub use laws::{own_commits_are_read_back, sessions_handed_out_may_call};
pub use session::TableSession;
