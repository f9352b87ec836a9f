//! The laws of histories on which the Serial Safety Net rests, and the laws of the machine that keeps it. Each law is the
//! contract of a function that does nothing.
#![tactic(auto)]

mod machine;

ghost use Rattle.std.specs.Prelude.{◌≡◌, ◌<◌, ℕ, List};
ghost use Rattle.erm_model.specs.declared.history.TransactionRecord.{TransactionRecord};
ghost use Rattle.erm_model.specs.Member.{◌∈◌};
ghost use Rattle.erm_model.specs.SerialOrder.{IsSerialOrder, Rank, StampsDiffer};
ghost use Rattle.erm_model.specs.History.{History, IsSnapshot, IsCertified, rank_of, below, IsVersion, IsNewestBelow, RunsSerially, HasNewestRows, rows_after};
ghost use Rattle.erm_model.specs.Rows.{Rows};
ghost use Rattle.erm_model.specs.Committed.{Committed};
ghost use Rattle.erm_model.specs.Committed as committed;
ghost use Rattle.erm_core_ssn.specs.Laws.{DependenciesGoForward, StandsAfterItsDependencies, AreSuccessorStamps, AllBelow, KeepsLaw};

use erm_model::RowLaw;
pub use machine::{
    commits_are_a_snapshot_history, commits_are_certified, decisions_are_kept, marks_are_kept,
    readers_are_kept, reads_and_claims_are_snapshots, rows_are_kept,
};

/// Successor stamps are unique: each history has them, and the definition leaves each transaction one number.
pub fn successor_stamps_are_unique()
    ensures exists { (h : History) → (succ : TransactionRecord → ℕ) × AreSuccessorStamps h succ }
    ensures unique { (h : History) (f g : TransactionRecord → ℕ)
        → AreSuccessorStamps h f → AreSuccessorStamps h g
        → (t : TransactionRecord) → t ∈ h → f t ≡ g t }
{}

/// Dependencies go forward: in a certified snapshot history a transaction comes, in the serial order, after each one
/// that it depends on.
pub fn dependencies_go_forward()
    ensures ranks { (h : History) (opening : Rows) → IsSnapshot h opening → IsCertified h
        → DependenciesGoForward h }
    ensures places { (h : History) (opening : Rows) → IsSnapshot h opening → IsCertified h
        → (order : History) → IsSerialOrder rank_of h order → StandsAfterItsDependencies order }
{}

/// Prefixes stand alone: what a snapshot history has below a stamp is a snapshot history, and what a certified history
/// has below a stamp is certified, with the same successor and predecessor stamps, since its transactions carry them.
pub fn prefixes_stand_alone()
    ensures snapshot { (h : History) (opening : Rows) → IsSnapshot h opening
        → (bound : ℕ) → IsSnapshot (below bound h) opening }
    ensures certified { (h : History) → IsCertified h → (bound : ℕ) → IsCertified (below bound h) }
{}

/// Rows run serially: run one after another in the serial order over the opening's rows, the transactions of a
/// certified snapshot history each find the rows that they read and overwrote, and leave each object its newest row. So
/// do those below a stamp, which leave each object its newest row below it.
pub fn rows_run_serially()
    ensures run { (h : History) (opening : Rows) → IsSnapshot h opening → IsCertified h
        → (order : History) → IsSerialOrder rank_of h order → RunsSerially h opening opening order }
    ensures newest { (h : History) (opening : Rows) → IsSnapshot h opening → IsCertified h
        → (order : History) → IsSerialOrder rank_of h order
        → (bound : ℕ) → 0 < bound → AllBelow bound h
        → HasNewestRows h opening bound (rows_after order opening) }
    ensures run_below { (h : History) (opening : Rows) → IsSnapshot h opening → IsCertified h
        → (bound : ℕ) (order : History) → IsSerialOrder rank_of (below bound h) order
        → RunsSerially (below bound h) opening opening order }
    ensures newest_below { (h : History) (opening : Rows) → IsSnapshot h opening → IsCertified h
        → (bound : ℕ) (order : History) → IsSerialOrder rank_of (below bound h) order
        → 0 < bound → HasNewestRows h opening bound (rows_after order opening) }
{}

/// The serial order of a certified history exists, and no history has two, whatever ranks its transactions. So it is with
/// commits as sessions see them.
pub fn serial_order_is_unique()
    ensures exists { (h : History) → IsCertified h
        → (order : History) × IsSerialOrder rank_of h order }
    ensures unique { (rank : TransactionRecord → Rank) (h one other : History)
        → IsSerialOrder rank h one → IsSerialOrder rank h other → one ≡ other }
    ensures exists_for_sessions { (commits : List Committed) → StampsDiffer committed.rank_of commits
        → (order : List Committed) × IsSerialOrder committed.rank_of commits order }
    ensures unique_for_sessions { (commits one other : List Committed)
        → IsSerialOrder committed.rank_of commits one → IsSerialOrder committed.rank_of commits other
        → one ≡ other }
{}

/// Versions are unique: one of an object and a stamp has one row, and the newest one below a bound has one stamp and row.
pub fn versions_are_unique()
    ensures row { (h : History) (opening : Rows) → IsSnapshot h opening → IsCertified h
        → (oid stamp : ℕ) (one other : List ℕ) → IsVersion h opening oid stamp one → IsVersion h opening oid stamp other
        → one ≡ other }
    ensures newest { (h : History) (opening : Rows) → IsSnapshot h opening → IsCertified h
        → (oid bound stamp other_stamp : ℕ) (row other_row : List ℕ)
        → IsNewestBelow h opening oid bound stamp row → IsNewestBelow h opening oid bound other_stamp other_row
        → (stamp ≡ other_stamp) × (row ≡ other_row) }
{}

/// Rows stay lawful: of a certified snapshot history that keeps a law of rows, the newest rows below any stamp meet it.
pub fn newest_rows_stay_lawful<L: RowLaw>()
    ensures { (h : History) (opening : Rows) → IsSnapshot h opening → IsCertified h → KeepsLaw L.law h opening
        → (bound : ℕ) (rows : Rows) → 0 < bound → HasNewestRows h opening bound rows → L.law.meets rows }
{
    prefixes_stand_alone();
    serial_order_is_unique();
    rows_run_serially();
    versions_are_unique();
}
