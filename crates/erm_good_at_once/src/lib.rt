//! What a report owes beside the good report where sessions run at once: what a session met of others lies below its later begins; and
//! the report of sessions that the disk's fault cut off, each behind a line of its own.
#![tactic(auto)]

mod laws;

pub use laws::{
    bad_cuts_are_refused, clauses_at_once_are_needed, cut_stamps_are_in_reach, gaps_are_allowed,
};
