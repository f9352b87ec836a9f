//! The world over the word table, on rows that were recovered.
#![tactic(auto)]

mod recovered;

pub use recovered::open_table;
