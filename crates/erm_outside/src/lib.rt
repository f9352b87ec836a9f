//! The outside of the engine as traits: where a script comes from, where a report goes, where the log lies, and what
//! workers pass. Each counts its faults, so that an answer `Failed` has a cause.
#![tactic(auto)]

mod disk;
mod gate;
mod laws;
mod sink;
mod source;

pub use disk::{Disk, File};
pub use gate::{Gate, OpenGate, Place};
pub use laws::{
    ImageLaw, files_stand_alone, moments_join, reads_are_an_image, syncs_settle, weaker_laws_hold,
};
pub use sink::{Sink, put_all};
pub use source::Source;

/// A call to the outside failed, and its object counted a fault.
#[derive(Clone, Copy, Debug, PartialEq, Eq)]
pub struct Failed;
