//! The laws of what seats see of one another: each event keeps what a look promises, what begins announce, who owns an
//! entry, and what was read. Each law is the contract of a function that does nothing.
#![tactic(auto)]

ghost use Rattle.std.specs.Prelude.{◌≡◌, ◌≢◌, ℕ, Some};
ghost use Rattle.erm_machine.specs.declared.event.Kind.{Kind};
ghost use Rattle.erm_machine.specs.Begins.{OwnBegins, Begins};
ghost use Rattle.erm_machine.specs.Claims.{Claims, OwnClaims};
ghost use Rattle.erm_machine.specs.Clear.{OwnClear, Clear};
ghost use Rattle.erm_machine.specs.Core.{Core};
ghost use Rattle.erm_machine.specs.Snapshot.{OwnSnapshot, Snapshot};
ghost use Rattle.erm_machine.specs.Sound.{Sound};
ghost use Rattle.erm_machine.specs.Step.{after_event};
ghost use Rattle.erm_machine.specs.Tasks.{OwnTask};

/// From a sound state each event of each seat leads to one in which no bound noted lies above the tail, and a seat that was
/// found clear for a bound has no unfinished range below it.
pub fn looks_stay_true()
    ensures seats { (c d : Core) (seat : ℕ) (kind : Kind) → Sound c → after_event c seat kind ≡ Some d
        → (p : ℕ) → OwnClear d.shared (d.seats p) }
    ensures pairs { (c d : Core) (seat : ℕ) (kind : Kind) → Sound c → after_event c seat kind ≡ Some d
        → (p q : ℕ) → p ≢ q → Clear (d.seats p) q (d.seats q) }
{}

/// From a sound state each event of each seat leads to one in which begin words are at most begin stamps, those at most commit
/// stamps and the tail, and a cutter's least number so far is at most the begin stamp of each seat that it has passed.
pub fn begins_are_kept()
    ensures seats { (c d : Core) (seat : ℕ) (kind : Kind) → Sound c → after_event c seat kind ≡ Some d
        → (p : ℕ) → OwnBegins d.shared p (d.seats p) }
    ensures pairs { (c d : Core) (seat : ℕ) (kind : Kind) → Sound c → after_event c seat kind ≡ Some d
        → (p q : ℕ) → p ≢ q → Begins (d.seats p) q (d.seats q) }
{}

/// From a sound state each event of each seat leads to one in which a seat is in the middle of a call only at a place of that
/// call.
pub fn tasks_are_kept()
    ensures seats { (c d : Core) (seat : ℕ) (kind : Kind) → Sound c → after_event c seat kind ≡ Some d
        → (p : ℕ) → OwnTask (d.seats p) }
{}

/// From a sound state each event of each seat leads to one in which an entry's owner is the one seat that holds a claim on the
/// object, what a claim overwrites is the newest version and lies below the begin stamp, each older version is marked by the
/// stamp of the next one, and the newest one of an entry without owner is not marked and has no overwriter's successor stamp.
pub fn claims_are_kept()
    ensures shared { (c d : Core) (seat : ℕ) (kind : Kind) → Sound c → after_event c seat kind ≡ Some d
        → Claims d.shared }
    ensures seats { (c d : Core) (seat : ℕ) (kind : Kind) → Sound c → after_event c seat kind ≡ Some d
        → (p : ℕ) → OwnClaims d.shared p (d.seats p) }
{}

/// From a sound state each event of each seat leads to one in which each version read is the newest one below the begin stamp,
/// and stays so: no range below it holds a claim on the object. So it is with each claim: of the versions newer than the one that
/// it overwrites none lies below the begin stamp.
pub fn snapshots_are_kept()
    ensures seats { (c d : Core) (seat : ℕ) (kind : Kind) → Sound c → after_event c seat kind ≡ Some d
        → (p : ℕ) → OwnSnapshot d.shared (d.seats p) }
    ensures pairs { (c d : Core) (seat : ℕ) (kind : Kind) → Sound c → after_event c seat kind ≡ Some d
        → (p q : ℕ) → p ≢ q → Snapshot (d.seats p) q (d.seats q) }
{}
