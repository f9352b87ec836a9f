//! Programs on threads over the word table: each has the client of a session, and waits by turns of the desk under its lock.
#![tactic(auto)]

mod back;
mod jobs;
mod ran;
mod room;
mod run;
mod turns;
mod work;

pub use ran::{ProgramRun, ProgramsRan};
pub use run::{run_opened_programs, run_programs};
