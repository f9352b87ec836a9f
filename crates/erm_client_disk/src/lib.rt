//! Programs with transactions in their own code, on a disk: recovery, the opening of the log, a session and a client for each program on a thread of its
//! own, and the close. What a crash leaves of them at any moment is known, and what the disk has at the end.
//!
//! A program implements `erm_client_threads::Program`, and `run_programs_on_disk` runs any number of them up to that of a table's sessions.
#![tactic(auto)]

mod ends;
mod invariants;
mod laws;
mod run;

pub use invariants::{crashes_keep_for_clients, ends_keep_for_clients};
pub use laws::{ended_clients_are_done, ended_clients_outlive, openings_outlive};
pub use run::{ProgramsOnDisk, ProgramsStop, run_programs_on_disk};
