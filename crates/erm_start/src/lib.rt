//! The worlds on which scripts start.
#![tactic(auto)]

mod laws;
mod recovered;

pub use laws::zero_rows_are_the_empty_map;
pub use recovered::{first_object, open_world};
