//! What the command that makes a workload and runs it prints: the counts of the lines of its report.
#![tactic(auto)]

mod counts;
mod laws;
mod lines;

pub use counts::{Made, counts_of};
pub use laws::each_transaction_is_counted;
pub use lines::made_lines;
