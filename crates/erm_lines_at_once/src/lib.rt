//! The lines of a script whose sessions run at once: what an answer says of the session's own part, and of the world in which all end; what an
//! execution is; and what a line calls, each in one try.
#![tactic(auto)]

mod calls;
mod laws;
mod looks;
mod operations;
mod savepoints;
mod snapshots;

pub use calls::{abort, begin, decide, seal, try_durable};
pub use laws::{empty_scripts_run_at_once, scripts_may_be_cut_off_at_once};
pub use looks::look;
pub use operations::{del, get, next, put, scan, tidy};
pub use savepoints::{back, save};
pub use snapshots::{begin_snapshot, end_snapshot, give_up_snapshot, has_snapshot, try_safe};
