//! The runner of a script over any world of sessions, whose log a disk keeps.
#![tactic(auto)]

mod answers;
mod closes;
mod cut;
mod laws;
mod lines;
mod log_lines;
mod rows;
mod stops;
mod store;
mod whole;

pub use answers::answer_all;
pub use closes::{by_seat, close_all};
pub use cut::cut_report;
pub use laws::sessions_close_alike;
pub use lines::run_line;
pub use log_lines::{checkpoint_line, flush_line};
pub use rows::RowsOf;
pub use stops::{LineStop, RunStop};
pub use store::Store;
pub use whole::run_script;
