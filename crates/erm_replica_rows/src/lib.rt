//! The replica of a log that is shipped as a stream: what its items leave, at the greatest safe stamp that they name.
#![tactic(auto)]

mod any_test;
mod feed_stop;
mod laws;
mod reader;
mod replica;
mod replica_rows;
mod snapshot;

pub use feed_stop::FeedStop;
pub use laws::{
    bad_streams_stay_bad, kept_replicas_answer, replica_rows_may_be_read, replicas_are_one,
};
pub use replica::Replica;
pub use replica_rows::ReplicaRows;
