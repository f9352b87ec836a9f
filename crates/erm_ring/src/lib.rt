//! The ring of the log's last words: a sealed transaction's block is stored there, its header last, which decides; the flush seat gathers
//! what is decided, and once that is synced clears it. None of the calls waits or takes memory.
#![tactic(auto)]

mod block;
mod turns;

pub use block::{decide, fill};
pub use turns::{clear, gather};
