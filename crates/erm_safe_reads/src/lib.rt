//! The read of a safe snapshot, in its three parts: the entry of the object is loaded, the walk goes down its chain to the newest version
//! below the begin stamp, and the row of that is loaded. No owner is looked at, no bit is set and nothing is noted. None waits or takes
//! memory.
#![tactic(auto)]

mod entering;
mod rows;
mod walking;

pub use entering::enter_safe;
pub use rows::load_safe_row;
pub use walking::walk_safe;
