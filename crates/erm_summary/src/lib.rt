//! The rest of a report, from the answers to its script: the transactions that committed, their serial order, the map after
//! them, and the lines that tell all this.
#![tactic(auto)]

mod commits;
mod hearing;
mod laws;
mod maps;
mod order;
mod report;
mod told;

pub use commits::commits_told;
pub use laws::{summaries_are_good, summaries_are_in_tables};
pub use maps::map_after;
pub use order::order_of;
pub use report::{Start, report_of};
pub use told::{ClosedSession, ToldCommit};
