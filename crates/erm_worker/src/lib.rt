//! The worker of one session: it runs the session's lines to their end, while other sessions run beside it, whatever they do. It knows
//! neither where the sessions are nor how it waits.
#![tactic(auto)]

mod ends;
mod laws;
mod line;
mod lines;
mod operations;
mod snapshots;
mod turns;

pub use ends::close_session;
pub use laws::work_is_a_part;
pub use line::run_line;
pub use lines::run_lines;
pub use turns::{Turns, Why};
