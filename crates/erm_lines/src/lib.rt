//! The lines of a script over any world of sessions: what an answer says of the world in which its line was run, and the running of
//! one.
#![tactic(auto)]

mod durable;
mod ends;
mod laws;
mod line;
mod looks;
mod operations;
mod phases;
mod safe_txn;
mod saves;
mod scans;
mod snapshots;
mod stops;
mod tidy;

pub use durable::answer_durable;
pub use ends::close_session;
pub use laws::{lines_keep_runs, lines_leave_the_log};
pub use line::answer_line;
pub use phases::refusal_of;
pub use safe_txn::SafeTxn;
pub use scans::scan;
