//! A workload made by a generator: a script of transactions in batches, and its text.
#![tactic(auto)]

mod batches;
mod draws;
mod laws;
mod lines;
mod load;
mod names;
mod text;
mod workload;

pub use laws::{first_draws_are_known, workloads_are_read_back, workloads_are_scripts};
pub use text::text_but_flushes;
pub use workload::{MOST_TRANSACTIONS, make};
