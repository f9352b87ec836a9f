//! Sessions on threads over the word table, which take turns of the desk under its lock.
#![tactic(auto)]

mod apart;
mod back;
mod end;
mod jobs;
mod run;
mod sessions;
mod shared;
mod turns;
mod work;

pub use end::close_sessions;
pub use sessions::{run_opened, run_sessions};
pub use shared::SharedDesk;
pub use turns::DeskTurns;
pub use work::{Ran, SessionWork};
