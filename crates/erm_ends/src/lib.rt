//! The ends of a session's transaction on the words that threads share: an active one aborts, one that is committed
//! installs what it has claimed, and one that was excluded leaves all as it was; and the end of a snapshot. None of the calls waits or takes
//! memory.
#![tactic(auto)]

mod aborting;
mod backs;
mod clearing;
mod committing;
mod ending;
mod installing;
mod leaving;
mod raising;
mod releasing;
mod skipping;

pub use aborting::abort;
pub use committing::commit_end;
pub use ending::end_safe;
pub use skipping::skip_end;
