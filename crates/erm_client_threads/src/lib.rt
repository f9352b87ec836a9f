//! Programs over the engine: each has the client of a session, on a thread of its own. It knows neither where the sessions are nor how clients wait.
//!
//! A program implements `Program`: what it does with its client, and what it promises of the transcript that the client leaves.
#![tactic(auto)]

mod job;
mod program;
mod threads;
mod worker;

pub use job::Job;
pub use program::Program;
pub use threads::work_all;
pub use worker::work;
