//! What a step of a seat reads and changes, as the running machine keeps it: words, places and tasks, objects, transactions.
//! Each function does exactly what the definition of the same name in `erm_machine` says.
#![tactic(auto)]

mod attempt;
mod claims;
mod given_up;
mod object;
pub mod words;

pub use attempt::AttemptState;
pub use claims::{has_base, is_own};
pub use object::ObjectState;
