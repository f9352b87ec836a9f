//! A script whose sessions run at once, on threads, on a disk.
#![tactic(auto)]

mod apart;
mod cut;
mod laws;
mod ran;
mod report;
mod room;
mod run;

pub use run::run_at_once_on_disk;
