//! What is an end of replicating.
ghost use Rattle.std.specs.Prelude.{◌≡◌, ℕ, List, ◌++◌, Some};
ghost use Rattle.erm_follow_run.specs.Ends.{StarvesAtOnce, Ways};
ghost use Rattle.erm_replica_rows.specs.Replica.{IsBadAt};
ghost use Rattle.erm_replica_run.specs.Ends.{EndsNear, ReplicaEnds};

use erm_replica_rows::{bad_streams_stay_bad, kept_replicas_answer};

/// Where memory runs out before a byte is taken, replicating ends with status 8.
pub fn starved_replicas_end()
    ensures { (a : Ways) → StarvesAtOnce a → ReplicaEnds 8 a }
{
    kept_replicas_answer();
}

/// Where what stands at a place of a stream's front is no item, whatever follows, replicating ends before a whole piece more was taken
/// behind that front, whatever the status.
pub fn bad_streams_end_it()
    ensures { (status : ℕ) (a : Ways) (front more : List ℕ) (place : ℕ) → ReplicaEnds status a → a.left_before ≡ Some (front ++ more)
        → IsBadAt front place → EndsNear front a }
{
    bad_streams_stay_bad();
}
