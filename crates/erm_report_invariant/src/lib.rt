//! Invariants of the database map, in the reports of an engine: what each commit keeps when it is run alone, the map printed has.
#![tactic(auto)]

mod laws;

pub use laws::{answers_see_invariants, commits_keep_invariants, good_reports_keep_invariants};
