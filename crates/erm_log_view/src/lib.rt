//! The contract of a log as a flusher sees it that others may go on writing: what it gathers, what is told
//! flushed, and which rows are read as of a pin.
#![tactic(auto)]

mod log_view;
mod pinned_log;

pub use log_view::LogView;
pub use pinned_log::PinnedLog;
