//! The outside of the engine in memory: a source over bytes, a sink that grows, files in a map, a gate that is always open, and one that holds
//! a session up. Calls of them may be made to fail, each by its number.
#![tactic(auto)]

mod calls;
mod crash;
mod files;
mod hold_first;
mod mem_disk;
mod mem_sink;
mod mem_source;
mod notes;
mod picks;
mod silent;
mod steady_source;
mod syncs;

pub use erm_outside::OpenGate;
pub use hold_first::HoldFirst;
pub use mem_disk::MemDisk;
pub use mem_sink::MemSink;
pub use mem_source::MemSource;
pub use picks::Pick;
pub use silent::Silent;
pub use steady_source::SteadySource;
