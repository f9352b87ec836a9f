//! Orders and replays: the serial order of commits, and transactions run one after another.
#![tactic(auto)]

mod order;
mod replays;

pub use order::serial_order;
pub use replays::replay;
