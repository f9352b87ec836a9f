//! Map calls over the rows of any transaction: the tree of a table, read and changed row by row.
#![tactic(auto)]

mod change;
mod insert;
mod laws;
mod plan;
mod read;
mod walk;

pub use change::{del, put};
pub use laws::{
    calls_change_one_table, calls_stay_in_their_table, looks_and_claims_set_no_row,
    operations_are_run_one, puts_are_bounded, refused_calls_set_no_row,
    refused_calls_stay_in_their_table, tables_stand_apart, ways_are_of_own_nodes,
};
pub use read::{find, get, next};
