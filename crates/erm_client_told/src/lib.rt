//! What the transcripts of clients tell, wherever these were stopped: an execution that was cut off, and all of its commits; and so
//! where memory ran out for some of them.
#![tactic(auto)]

mod laws;

pub use laws::{
    starved_transcripts_tell_commits, starved_transcripts_tell_snapshots,
    transcripts_are_a_cut_run, transcripts_are_a_starved_run, transcripts_tell_commits,
};
