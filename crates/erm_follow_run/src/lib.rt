//! A stream of a log followed from a source to a sink: the commits below a safe stamp are put in the serial order.
#![tactic(auto)]

mod drained;
mod ends;
mod following;
mod halt;
mod laws;
mod steps;

pub use ends::{push_count, push_number};
pub use following::{CHUNK_BYTES, STREAM_BYTES, follow, print, put_bad, starve, take_chunk};
pub use laws::starving_is_an_end;
