//! The world over the word table: all sessions in one pass, over the words that threads share.
#![tactic(auto)]

mod begins;
mod claims;
mod log_world;
mod makes;
mod reads;
mod safe_world;
mod saving;
mod seals;
mod settles;
mod snapshots;
mod table_world;
pub mod turns;
mod world;

pub use table_world::TableWorld;
pub use world::standing_worlds_have_laws;
