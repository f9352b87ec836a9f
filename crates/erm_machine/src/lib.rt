//! The core machine: what one atomic step of one seat does to the words that all seats share and to what the seat keeps.
//! Types here, and in `specs` what a step is and which states are sound.
#![tactic(auto)]

mod attempt;
mod event;
mod laws;
mod limits;
mod part;
mod place;
mod task;
mod version;

pub use attempt::{Attempt, Claim, Decision, OwnCell, Read};
pub use event::{Answer, Counter, Event, Kind, TailUse};
pub use laws::guards_read_no_object;
pub use limits::{
    ANNOUNCERS, FLUSH_SEAT, GREATEST_BLOCK, LAST_NUMBER, LEAST_BLOCK, LOG_END, MOST_CELLS,
    OBJECT_LIMIT, READ_LIMIT, RING_WORDS, SESSIONS, STOP, WRITE_LIMIT,
};
pub use part::{Flushing, Part};
pub use place::Place;
pub use task::Task;
pub use version::{Cell, CellWord, Span, Version, VersionAt};
