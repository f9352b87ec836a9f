//! The sessions of a script run at once: each by a worker on a thread of its own. It knows neither where the sessions are nor how workers
//! wait.
#![tactic(auto)]

mod job;
mod laws;
mod parts;
mod threads;
mod worker;

pub use job::{Done, Job};
pub use laws::own_moves_are_of_own_lines;
pub use parts::{room_for_answers, split};
pub use threads::work_all;
pub use worker::work;
