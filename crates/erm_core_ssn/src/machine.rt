//! The laws of the machine's readers, marks and decisions, and that what it commits is certified. Each law is the contract of
//! a function that does nothing.
ghost use Rattle.std.specs.Prelude.{◌≡◌, ◌≢◌, ℕ, Some, false};
ghost use Rattle.erm_machine.specs.declared.attempt.Attempt.{Attempt};
ghost use Rattle.erm_machine.specs.declared.attempt.Claim.{Claim};
ghost use Rattle.erm_machine.specs.declared.attempt.Read.{Read};
ghost use Rattle.erm_machine.specs.declared.event.Kind.{Kind};
ghost use Rattle.erm_machine.specs.Core.{Core};
ghost use Rattle.erm_machine.specs.Decided.{Decided, OwnDecided, DecidedApart, history_of};
ghost use Rattle.erm_machine.specs.Facts.{all_of};
ghost use Rattle.erm_machine.specs.Marks.{Marks, OwnMarks};
ghost use Rattle.erm_machine.specs.Readers.{Readers, OwnReaders};
ghost use Rattle.erm_machine.specs.Sound.{Sound};
ghost use Rattle.erm_machine.specs.Step.{after_event};
ghost use Rattle.erm_machine.specs.Written.{Rowed, OwnWritten};
ghost use Rattle.erm_machine.specs.Lawful.{opening_rows};
ghost use Rattle.erm_model.specs.History.{IsCertified, IsNewestBelow, IsSnapshot};
ghost use Rattle.erm_model.specs.Member.{◌∈◌};

/// From a sound state each event of each seat leads to one in which the bit of a reader stands until its clearing, a committed
/// reader has raised the reader stamp before, and each reader stamp is a creator's or a committed reader's.
pub fn readers_are_kept()
    ensures shared { (c d : Core) (seat : ℕ) (kind : Kind) → Sound c → after_event c seat kind ≡ Some d
        → Readers d.shared d.seats }
    ensures seats { (c d : Core) (seat : ℕ) (kind : Kind) → Sound c → after_event c seat kind ≡ Some d
        → (p : ℕ) → OwnReaders d.shared p (d.seats p) }
{}

/// From a sound state each event of each seat leads to one in which each version but an object's first was made by the commit
/// that overwrote the one before, whose stamps it left there.
pub fn marks_are_kept()
    ensures shared { (c d : Core) (seat : ℕ) (kind : Kind) → Sound c → after_event c seat kind ≡ Some d
        → Marks d.shared d.seats }
    ensures seats { (c d : Core) (seat : ℕ) (kind : Kind) → Sound c → after_event c seat kind ≡ Some d
        → (p : ℕ) → OwnMarks d.shared (d.seats p) }
{}

/// From a sound state each event of each seat leads to one in which each decided transaction has the successor and the
/// predecessor stamp that the history gives it, and is a commit exactly where its exclusion window is open.
pub fn decisions_are_kept()
    ensures shared { (c d : Core) (seat : ℕ) (kind : Kind) → Sound c → after_event c seat kind ≡ Some d
        → Decided d.shared d.seats }
    ensures seats { (c d : Core) (seat : ℕ) (kind : Kind) → Sound c → after_event c seat kind ≡ Some d
        → (p : ℕ) → OwnDecided d.shared (d.seats p) }
    ensures pairs { (c d : Core) (seat : ℕ) (kind : Kind) → Sound c → after_event c seat kind ≡ Some d
        → (p q : ℕ) → p ≢ q → DecidedApart (d.seats p) q (d.seats q) }
{}

/// From a sound state each event of each seat leads to one in which each claim's own cell has the words of its row, and each
/// version that a commit has installed the row of its claim.
pub fn rows_are_kept()
    ensures shared { (c d : Core) (seat : ℕ) (kind : Kind) → Sound c → after_event c seat kind ≡ Some d
        → Rowed d.shared }
    ensures seats { (c d : Core) (seat : ℕ) (kind : Kind) → Sound c → after_event c seat kind ≡ Some d
        → (p : ℕ) → OwnWritten d.shared (d.seats p) }
{}

/// What a sound state has committed is a snapshot history over the rows of the opening.
pub fn commits_are_a_snapshot_history()
    ensures { (c : Core) → Sound c → IsSnapshot (history_of c.seats) (opening_rows c.shared) }
{}

/// What a sound state has committed is certified: stamps differ, and each exclusion window is open.
pub fn commits_are_certified()
    ensures { (c : Core) → Sound c → IsCertified (history_of c.seats) }
{}

/// In a sound state each transaction of each seat, whether it has committed, was excluded, aborted or is still in progress, has
/// read and claimed the newest versions below its begin stamp, of those that commits have made. A claim that no write has set
/// has the row that it overwrites.
pub fn reads_and_claims_are_snapshots()
    ensures reads { (c : Core) → Sound c → (seat : ℕ) (t : Attempt) (r : Read) → t ∈ all_of (c.seats seat) → r ∈ t.reads
        → IsNewestBelow (history_of c.seats) (opening_rows c.shared) r.version.oid t.begin r.stamp r.row }
    ensures claims { (c : Core) → Sound c → (seat : ℕ) (t : Attempt) (w : Claim) → t ∈ all_of (c.seats seat) → w ∈ t.writes
        → IsNewestBelow (history_of c.seats) (opening_rows c.shared) w.version.oid t.begin w.stamp w.base }
    ensures kept { (c : Core) → Sound c → (seat : ℕ) (t : Attempt) (w : Claim) → t ∈ all_of (c.seats seat) → w ∈ t.writes
        → w.is_set ≡ false → w.row ≡ w.base }
{}
