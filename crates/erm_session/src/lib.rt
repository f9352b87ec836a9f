//! The calls of a session on the words that threads share: begin, read, claim, write, tidy, seal, settle and abort, and those of a snapshot
//! that only reads, each whole, over what the session keeps beside its pass. None of the calls waits, and none takes memory once the session
//! is made.
#![tactic(auto)]

mod finding;
mod finishing;
mod life;
mod making;
mod reading;
mod room;
mod safe;
mod saving;
mod sealing;
mod session;
mod settling;
mod tidying;
mod writing;

pub use session::{Session, Stage};
