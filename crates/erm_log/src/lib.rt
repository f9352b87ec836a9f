//! The blocks of a disk's log one by one, where its log list ends, and what lies behind.
#![tactic(auto)]

mod behind;
mod block_text;
mod blocks;
mod logged;

pub use behind::Behind;
pub use logged::{LogText, log_text, put_log};
