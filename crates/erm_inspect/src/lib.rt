//! What is told of a disk: the database map that it recovers to, and the commits of its log in the serial order.
#![tactic(auto)]

mod audit;
mod found;
mod map_lines;
mod recovery;

pub use audit::audited;
pub use map_lines::push_map;
pub use recovery::recovered;
