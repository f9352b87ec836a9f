//! Readers of versions, and the stamps by which transactions exclude one another: a read registers its version and rates it, a settle
//! loads the bits of readers, an end raises, marks and clears. None waits or takes memory.
#![tactic(auto)]

pub mod answer;
mod ends;
mod laws;
mod reads;
mod settles;
mod walking;

pub use ends::{mark_overwritten, raise, unregister};
pub use laws::{
    bits_are_of_readers, bits_of_two_readers, committed_readers_leave_a_bit_or_a_stamp,
    committed_readers_over_leave_a_stamp, readers_below_are_looked_at, readers_have_their_bits,
    readers_passed_are_later,
};
pub use reads::{rate_read, register};
pub use settles::readers;
pub use walking::walk;
