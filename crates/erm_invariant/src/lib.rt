//! Invariants of the database map. What each transaction keeps when it is run alone holds after each one of a serial run. Nothing here
//! knows how transactions are run.
//!
//! A program that decides by what it reads is a list of operations here, with the replies that it was given: that it keeps an invariant
//! is asked only where these are the replies of the map that it is run on.
#![tactic(auto)]

mod laws;

pub use laws::{
    Invariant, invariants_hold_below, invariants_last, invariants_last_in_order,
    readers_keep_invariants,
};
