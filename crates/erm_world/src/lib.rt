//! The contract of a world of sessions: what its calls mean, what their refusals say, and the laws that all of them keep.
#![tactic(auto)]

mod gathered;
mod laws;
mod log_world;
mod safe_world;
mod script_world;
mod stops;
mod txn;
mod world;

pub use gathered::{Gathered, SeatWait};
pub use laws::{
    blocks_are_one, blocks_of_sessions_stay, histories_tell_commits, laws_that_say_the_same,
};
pub use log_world::LogWorld;
pub use safe_world::SafeWorld;
pub use script_world::ScriptWorld;
pub use stops::{BeginStop, NoSave, NotFlushed, SafeStop, SaveStop, Wait};
pub use txn::WorldTxn;
pub use world::RowWorld;
