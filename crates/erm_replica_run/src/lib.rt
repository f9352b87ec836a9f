//! A replica of the log that a source has as a stream: what it answers is put to a sink.
#![tactic(auto)]

mod laws;
mod replicating;
mod texts;

pub use laws::{bad_streams_end_it, starved_replicas_end};
pub use replicating::replicate;
