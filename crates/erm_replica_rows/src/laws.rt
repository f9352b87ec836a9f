//! Laws of replicas: each is the contract of a function that does nothing.
ghost use Rattle.std.specs.Prelude.{◌≡◌, ℕ, List, ◌++◌, true, false};
ghost use Rattle.erm_model.specs.RowTransaction.{IsLawful, IsPossible};
ghost use Rattle.erm_replica_rows.specs.Keeping.{Keeps, Replicated, shown};
ghost use Rattle.erm_replica_rows.specs.Replica.{IsBadAt, IsReplicaOf, SameShown, Shown};
ghost use Rattle.erm_replica_rows.specs.Seeing.{AreWhole};

use crate::ReplicaRows;
use erm_model::{RowLaw, RowRead};
use erm_node::SoundRows;
use erm_replica::{fronts_are_one, fronts_stay, parts_are_announced};

/// What a replica that keeps what bytes tell answers is what a replica of these bytes answers; and where it knows that what stands next is no
/// item, it knows the place.
pub fn kept_replicas_answer()
    ensures answers { (bytes : List ℕ) (r : Replicated) → Keeps bytes r → IsReplicaOf bytes (shown r) }
    ensures bad { (bytes : List ℕ) (r : Replicated) → Keeps bytes r → r.is_bad ≡ true → IsBadAt bytes r.kept.stream.place }
    ensures good { (bytes : List ℕ) (r : Replicated) (place : ℕ) → Keeps bytes r → r.is_bad ≡ false → IsBadAt bytes place → ⊥ }
{
    SoundRows::respects_rows();
    fronts_are_one();
    fronts_stay();
    parts_are_announced();
}

/// What a replica of bytes answers is one, however they were cut, and so is the place where they are bad.
pub fn replicas_are_one()
    ensures answers { (bytes : List ℕ) (a b : Shown) → IsReplicaOf bytes a → IsReplicaOf bytes b → SameShown a b }
    ensures place { (bytes : List ℕ) (a b : ℕ) → IsBadAt bytes a → IsBadAt bytes b → a ≡ b }
{
    fronts_are_one();
}

/// What stands at a place and is no item is none whatever follows.
pub fn bad_streams_stay_bad()
    ensures { (bytes more : List ℕ) (place : ℕ) → IsBadAt bytes place → IsBadAt (bytes ++ more) place }
{
    fronts_are_one();
    fronts_stay();
    parts_are_announced();
}

/// Whole rows that are sound are read as if a transaction had begun on them.
pub fn replica_rows_may_be_read<'a>(rows: &ReplicaRows<'a>)
    requires { AreWhole rows.now.rows.now }
    ensures possible { IsPossible ⟦<ReplicaRows<'a> as RowRead>⟧.face rows.now }
    ensures lawful { IsLawful ⟦<ReplicaRows<'a> as RowRead>⟧.face rows.now }
{
    let _rows = rows.rows;
}
