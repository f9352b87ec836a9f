//! From rows to maps: the laws that carry serializability from the rows of a world to the operations of its sessions on the
//! database map. Each law is the contract of a function that does nothing.
#![tactic(auto)]

ghost use Rattle.std.specs.Prelude.{◌≡◌, ℕ, suc, ◌<◌, List, [], ◌∷◌, ◌++◌, None, Some};
ghost use Rattle.std.specs.List.{slice_get};
ghost use Rattle.erm_model.specs.declared.history.VersionWritten.{VersionWritten};
ghost use Rattle.erm_model.specs.declared.operation.Op.TheVariants as operation;
ghost use Rattle.erm_model.specs.declared.operation.Reply.TheVariants as reply;
ghost use Rattle.erm_model.specs.Committed.{HasSnapshotReplies};
ghost use Rattle.erm_model.specs.History.{HasNewestRows, History, IsNewestBelow, after_writes, below, rank_of, rows_after};
ghost use Rattle.erm_model.specs.Rows.{Rows};
ghost use Rattle.erm_model.specs.RowTransaction.{SameLaw};
ghost use Rattle.erm_model.specs.Run.{AreOnMap, RunsOne, Step, saved_as};
ghost use Rattle.erm_model.specs.SerialOrder.{IsSerialOrder};
ghost use Rattle.erm_node.specs.Sound.{IsSound, sound_law};
ghost use Rattle.erm_node.specs.TreeMap.{map_of_rows};
ghost use Rattle.erm_world.specs.Laws.{IsPossibleIn, IsSerializable};
ghost use Rattle.erm_tree.specs.Calls.{IsReady};
ghost use Rattle.erm_tree.specs.Operations.{AreCalled, Call, answered_steps};
ghost use Rattle.erm_world.specs.Going.{Extends};
ghost use Rattle.erm_world.specs.Saves.{HasClaimed, OnceOf, restored};
ghost use Rattle.erm_world.specs.World.{View, Work, begun, history_of};
ghost use Rattle.erm_maps.specs.Runs.{Agree, AreRuns, GoesOnBy, IsAnswered, IsRunOf, Kept, RepliesAreSnapshots, RunsAsOperations, StandsBelow, Told, WasRun, going_back, kept_at, saving, told_commits};

use erm_model::{RowLaw, RowRead};
use erm_world::{RowWorld, WorldTxn};

/// The rows that the commits below any stamp leave, run one after another in the serial order, meet the law of rows.
pub fn rows_stay_lawful<L: RowLaw>()
    ensures { (v : View) (bound : ℕ) (order : History) → IsSerializable L.law v
        → IsSerialOrder rank_of (below bound (history_of v)) order → L.law.meets (rows_after order v.opening.rows) }
{
    erm_core_ssn::rows_run_serially();
    erm_core_ssn::versions_are_unique();
    erm_core_ssn::prefixes_stand_alone();
}

/// Each transaction, also one in progress, aborted or excluded, may have begun on the rows that the commits below its begin stamp
/// leave.
pub fn works_are_possible<L: RowLaw>()
    ensures { (v : View) → IsSerializable L.law v → IsPossibleIn L.law v }
{
    erm_core_ssn::rows_run_serially();
    erm_core_ssn::serial_order_is_unique();
    erm_core_ssn::versions_are_unique();
    erm_core_ssn::prefixes_stand_alone();
}

/// Where each transaction's rows are the run of its operations, the commits' operations run in the serial order on the database
/// map, with the replies that were told; so do those below any stamp; and each transaction's replies, whether it commits or not,
/// are those on the state below its begin stamp, after its own earlier operations.
pub fn histories_run_as_operations()
    ensures serial { (v : View) (told : Told) (order : History) → IsSerializable sound_law v → AreRuns v told
        → IsSerialOrder rank_of (history_of v) order → RunsAsOperations v told order }
    ensures states { (v : View) (told : Told) (bound : ℕ) (order : History) → IsSerializable sound_law v → AreRuns v told
        → IsSerialOrder rank_of (below bound (history_of v)) order → StandsBelow v told bound order }
    ensures snapshots { (v : View) (told : Told) → IsSerializable sound_law v → AreRuns v told → RepliesAreSnapshots v told }
{
    erm_core_ssn::rows_run_serially();
    erm_core_ssn::serial_order_is_unique();
    erm_core_ssn::versions_are_unique();
    erm_core_ssn::prefixes_stand_alone();
}

/// Below each stamp there are newest rows, one of each object, and they meet the law of rows.
pub fn snapshots_find_rows<L: RowLaw>()
    ensures rows { (v : View) (bound : ℕ) → IsSerializable L.law v → 0 < bound
        → (rows : Rows) × L.law.meets rows × HasNewestRows (history_of v) v.opening.rows bound rows }
    ensures one { (v : View) (oid bound stamp other : ℕ) (row other_row : List ℕ) → IsSerializable L.law v
        → IsNewestBelow (history_of v) v.opening.rows oid bound stamp row
        → IsNewestBelow (history_of v) v.opening.rows oid bound other other_row → row ≡ other_row }
{
    erm_core_ssn::rows_run_serially();
    erm_core_ssn::serial_order_is_unique();
    erm_core_ssn::versions_are_unique();
    erm_core_ssn::prefixes_stand_alone();
    rows_stay_lawful::<L>();
}

/// Where each transaction's rows are the run of its operations, replies that hold on the map of the newest rows below a stamp are those on
/// the state below it.
pub fn safe_replies_are_snapshots()
    ensures { (v : View) (told : Told) (b : ℕ) (steps : List Step) → IsSerializable sound_law v → AreRuns v told → 0 < b
        → ((rows : Rows) → IsSound rows → HasNewestRows (history_of v) v.opening.rows b rows → RunsOne (map_of_rows rows) steps)
        → HasSnapshotReplies (told_commits told (history_of v)) (map_of_rows v.opening.rows) b steps }
{
    erm_core_ssn::rows_run_serially();
    erm_core_ssn::serial_order_is_unique();
    erm_core_ssn::prefixes_stand_alone();
    histories_run_as_operations();
}

/// The operations that tree calls of a session answer in turn, refused calls and calls that set no row among them, are the run of
/// its transaction: so it keeps the law of sound rows, as a seal asks, and an answered operation is one of its run's. Its savepoints
/// stay.
pub fn calls_are_runs<'a, W: RowWorld + 'a>()
    ensures { SameLaw W.law sound_law → (s t : WorldTxn W) (calls : List Call) (before : List Step)
        → IsRunOf (kept_at (W.view s.world.now) s.seat) before → AreCalled ⟦<WorldTxn<'a, W> as RowRead>⟧.face s calls t
        → IsRunOf (kept_at (W.view t.world.now) t.seat) (before ++ answered_steps calls) }
{
    erm_tree::operations_are_run_one::<WorldTxn<'a, W>>();
}

/// A session in the middle of a transaction that is a run of operations so far is ready for the next tree call.
pub fn runs_are_ready<'a, W: RowWorld + 'a>()
    ensures { SameLaw W.law sound_law → (s : WorldTxn W) (before : List Step) → ⟦<WorldTxn<'a, W> as RowRead>⟧.face.active s
        → IsRunOf (kept_at (W.view s.world.now) s.seat) before → IsReady ⟦<WorldTxn<'a, W> as RowRead>⟧.face s }
{}

/// A transaction that has done nothing is the run of no operations, and has no savepoint.
pub fn begun_transactions_are_runs()
    ensures { (number begin : ℕ) → IsRunOf (record { work = begun number begin; saves = [] }) [] }
{}

/// A transaction that is the run of its operations is that of one `Save` more, once it has saved its claims.
pub fn saves_are_runs()
    ensures { (k : Kept) (steps : List Step) → IsRunOf k steps
        → IsRunOf (saving k) (steps ++ record { op = operation.Save; reply = reply.Done } ∷ []) }
{}

/// And that of one `Back` more, once its claims are restored to those of the savepoint. What it has read, claimed and made stays
/// so.
pub fn backs_are_runs()
    ensures { (k : Kept) (steps : List Step) (n : ℕ) (saved : List VersionWritten) → IsRunOf k steps
        → slice_get k.saves n ≡ Some saved
        → IsRunOf (going_back (suc n) saved k) (steps ++ record { op = operation.Back (suc n); reply = reply.Done } ∷ []) }
{}

/// And that of one `Back` more to where there is no savepoint: it leaves all as it is.
pub fn backs_to_none_are_runs()
    ensures { (k : Kept) (steps : List Step) (n : ℕ) → IsRunOf k steps → saved_as n k.saves ≡ None
        → IsRunOf k (steps ++ record { op = operation.Back n; reply = reply.Done } ∷ []) }
{}

/// And that of more steps on the map, once it has gone on by them. Its savepoints stay.
pub fn steps_on_the_map_are_runs()
    ensures { (k : Kept) (u : Work) (steps more : List Step) → AreOnMap more → IsRunOf k steps → GoesOnBy k.work u more
        → IsRunOf (record { work = u; saves = k.saves }) (steps ++ more) }
{}

/// Once it is over, it was the run of its operations.
pub fn runs_are_over()
    ensures { (k : Kept) (steps : List Step) → IsRunOf k steps → WasRun k.work steps }
{}

/// On rows where each claim finds what it found, a transaction that went back sees the rows that it saw at the savepoint, if it
/// claimed each object once.
pub fn restored_rows_are_seen()
    ensures { (saved claims : List VersionWritten) (rows : Rows) → HasClaimed saved claims → OnceOf claims → Agree rows claims
        → after_writes (restored saved claims) rows ≡ after_writes saved rows }
{}

/// A transaction that has gone on, and was ended by a refusal in the middle of a call, still owes the replies given before: they are
/// those of its operations on whatever rows fit all that it did.
pub fn answers_stay()
    ensures { (w u : Work) (steps : List Step) → Extends w u → IsAnswered w steps → IsAnswered u steps }
{}
