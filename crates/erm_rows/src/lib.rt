//! A read and a claim of a session on the words that threads share, each whole: what they find, what the session keeps of it, and why
//! they are refused; and the read of a safe snapshot, of which nothing is kept. None of the calls waits or takes memory.
#![tactic(auto)]

mod active;
mod claiming;
mod reading;
mod safe_reading;
mod taking;
mod tidying;

pub use active::Active;
pub use claiming::{Claimed, Filled, claim, cut_chain, fill_claim};
pub use reading::read;
pub use safe_reading::{safe_read, safe_rows_are_snapshots};
pub use taking::take_entry;
pub use tidying::tidy_claimed;
