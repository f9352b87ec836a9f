//! From the bytes of a script and its report to a text that tells the causes of refusals.
#![tactic(auto)]

mod answer;
mod put;
mod reading;
mod text;

pub use answer::read_answer;
pub use put::put_causes;
pub use reading::{read_answers, report_start};
pub use text::push_causes;
