//! Invariants of the database map that clients keep: what each commit of each client keeps when it is run alone lasts, whatever the interleaving. And the
//! commits of all clients: which they are, of which kind, and what they are answered in their serial order. And their snapshots, which see what the commits
//! before them leave.
#![tactic(auto)]

mod laws;

pub use laws::{
    Kind, clients_are_serial, clients_are_serial_with_snapshots, clients_keep_invariants,
    commits_are_of_kind, invariants_last_for_clients, snapshots_have_their_place,
    snapshots_see_invariants_for_clients, snapshots_stand_among_commits, told_commits_are_there,
    told_snapshots_are_there,
};
