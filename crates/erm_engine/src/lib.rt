//! How sessions that run on threads begin and end over the word table: a table is opened and hands out its sessions, each with the pass of its
//! own seat; and once they have run, all passes are joined and the table is closed, in one world in which all have ended.
#![tactic(auto)]

mod closing;
mod giving;
mod leaving;
mod opening;
mod taking;

pub use closing::{close, close_joined, join_all};
pub use leaving::{end_all, leave};
pub use opening::{Opened, open};
