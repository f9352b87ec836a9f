//! The laws of safe snapshots on the machine: a snapshot that has become safe has passed every session, and its begin stamp stays passed for
//! ever; below a passed stamp all is over, and a reader there has its place in the serial order. Each law is the contract of a function that
//! does nothing.
#![tactic(auto)]

ghost use Rattle.std.specs.Prelude.{◌≡◌, ◌≢◌, ◌<◌, ◌≤◌, ℕ, true, List, Some};
ghost use Rattle.erm_model.specs.History.{History, IsNewestBelow, rank_of};
ghost use Rattle.erm_model.specs.Member.{◌∈◌};
ghost use Rattle.erm_model.specs.SerialOrder.{IsSerialOrder};
ghost use Rattle.erm_machine.specs.declared.attempt.Attempt.{Attempt};
ghost use Rattle.erm_machine.specs.declared.attempt.Decision.TheVariants.{Undecided};
ghost use Rattle.erm_machine.specs.declared.event.Event.{Event};
ghost use Rattle.erm_machine.specs.declared.event.Kind.{Kind};
ghost use Rattle.erm_machine.specs.declared.limits.TheConstants.{OBJECT_LIMIT};
ghost use Rattle.erm_machine.specs.declared.task.Task.TheVariants as task;
ghost use Rattle.erm_machine.specs.Core.{Core, version_at};
ghost use Rattle.erm_machine.specs.Decided.{history_of};
ghost use Rattle.erm_machine.specs.Facts.{HoldsBelow, all_of};
ghost use Rattle.erm_machine.specs.Lawful.{opening_rows};
ghost use Rattle.erm_machine.specs.Seat.{is_safe};
ghost use Rattle.erm_machine.specs.Snapshot.{IsNewestAt};
ghost use Rattle.erm_machine.specs.Sound.{Sound};
ghost use Rattle.erm_machine.specs.Step.{after_event};
ghost use Rattle.erm_machine.specs.Words.{begin_of, is_session};
ghost use Rattle.erm_core_met.specs.Met.{IsBegunFrom};
ghost use Rattle.erm_core_stays.specs.Runs.{Runs};
ghost use Rattle.erm_model.specs.Safe.{IsSafeAt};
ghost use Rattle.erm_safe_laws.specs.Safe.{StandsBetween};
ghost use Rattle.erm_core_safe.specs.Passed.{ArePassed};

/// Once a snapshot is safe all sessions are passed at its begin stamp, its own one too.
pub fn safe_snapshots_have_passed()
    ensures { (c : Core) (p : ℕ) → Sound c → is_safe (c.seats p).task ≡ true → ArePassed (c.seats p).current.begin c }
{}

/// A stamp that is passed stays so over each event and each run, whatever the seats do, also when the snapshot is over.
pub fn what_is_passed_stays_passed()
    ensures event { (c d : Core) (b seat : ℕ) (kind : Kind) → Sound c → ArePassed b c → after_event c seat kind ≡ Some d → ArePassed b d }
    ensures run { (c d : Core) (b : ℕ) (es : List Event) → Sound c → ArePassed b c → Runs es c d → ArePassed b d }
{
    erm_sound::events_keep_sound();
}

/// A passed stamp is safe for what has committed; so a reader there has its place in the serial order of all that has committed.
pub fn passed_stamps_are_safe()
    ensures safe { (c : Core) (b : ℕ) → Sound c → ArePassed b c → IsSafeAt (history_of c.seats) b }
    ensures place { (c : Core) (b : ℕ) (order : History) → Sound c → ArePassed b c → 0 < b → IsSerialOrder rank_of (history_of c.seats) order
        → StandsBetween (history_of c.seats) (opening_rows c.shared) order b }
{
    erm_safe_laws::safe_snapshots_have_a_place();
    erm_core_ssn::commits_are_a_snapshot_history();
    erm_core_ssn::commits_are_certified();
}

/// No seat holds a claim with a range below a passed stamp, and each range below it is decided: a flush can go on to there.
pub fn ranges_below_passed_stamps_are_over()
    ensures nobody { (c : Core) (b oid : ℕ) → Sound c → ArePassed b c → (q : ℕ) → HoldsBelow (c.seats q) oid b → ⊥ }
    ensures decided { (c : Core) (b : ℕ) → Sound c → ArePassed b c
        → (q : ℕ) (t : Attempt) → t ∈ all_of (c.seats q) → 0 < t.stamp → t.stamp < b → t.decision ≢ Undecided }
{}

/// The version that a safe snapshot finds, the newest installed one below its begin stamp, is the newest one of all that has committed: its
/// reads need no look at owners.
pub fn safe_reads_are_snapshots()
    ensures { (c : Core) (p oid place stamp : ℕ) → Sound c → is_safe (c.seats p).task ≡ true → oid < OBJECT_LIMIT
        → let b = (c.seats p).current.begin in
        IsNewestAt (c.shared.objects oid) place b stamp
        → IsNewestBelow (history_of c.seats) (opening_rows c.shared) oid b stamp (version_at (c.shared.objects oid) place).words.row }
{}

/// A snapshot that has come to a seat and finds its begin word standing below the own begin stamp waits for another session, whose
/// transaction begins at that word or later, or is announced.
pub fn snapshots_wait_for_other_sessions()
    ensures { (c : Core) (p next : ℕ) → Sound c → (c.seats p).task ≡ task.Surveys next
        → 0 < begin_of (c.seats next).place → begin_of (c.seats next).place < (c.seats p).current.begin
        → (next ≢ p) × (is_session next ≡ true) × IsBegunFrom c next (begin_of (c.seats next).place) }
{}

/// A seat whose back word isn't 0 is a session's.
pub fn only_sessions_go_back()
    ensures { (c : Core) (q : ℕ) → Sound c → 0 < (c.seats q).back → is_session q ≡ true }
{}
