//! The stream of a disk's log, put to a sink: the checkpoint that recovery begins with, and then the blocks of the log list. Nothing is
//! written to the disk.
#![tactic(auto)]

mod base;
mod blocks;
mod lead;
mod put;
mod shipping;
mod stop;

pub use shipping::ship;
