//! Invariants of the database map, on a disk: what each commit of a script keeps when it is run alone, the report keeps, and each crash.
#![tactic(auto)]

mod at_once;
mod laws;

pub use at_once::{cut_runs_at_once_keep_invariants, runs_at_once_keep_invariants};
pub use laws::{
    cut_runs_keep_invariants, next_runs_find_invariants, runs_keep_invariants,
    starved_runs_keep_invariants,
};
