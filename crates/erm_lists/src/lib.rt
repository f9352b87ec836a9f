//! The world in lists: sessions over the core machine, which takes one atomic step at a time.
#![tactic(auto)]

mod begins;
mod blocks;
mod claims;
mod ends;
mod final_rows;
mod finishes;
mod gathers;
mod installs;
mod laws;
mod lists;
mod makes;
mod passes;
mod pins;
mod reads;
mod restores;
mod rows_at;
mod safe;
mod safe_reads;
mod seals;
mod settles;
mod steps;
mod walks;
mod writes;

pub use laws::standing_worlds_have_laws;
pub use lists::Lists;
