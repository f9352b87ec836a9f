//! The law of back words: each event keeps what a back word says of the commits of its seat, and what a snapshot has passed of
//! other sessions. The law is the contract of a function that does nothing.
#![tactic(auto)]

ghost use Rattle.std.specs.Prelude.{◌≡◌, ◌≢◌, ℕ, Some};
ghost use Rattle.erm_machine.specs.declared.event.Kind.{Kind};
ghost use Rattle.erm_machine.specs.Back.{OwnBack, OwnRaised, Back};
ghost use Rattle.erm_machine.specs.Core.{Core};
ghost use Rattle.erm_machine.specs.Sound.{Sound};
ghost use Rattle.erm_machine.specs.Step.{after_event};

/// From a sound state each event of each seat leads to one in which a seat's back word is 0 or the stamp of a commit of its own that
/// goes back, and, from the clearing of its begin word on, at least the stamp of each such commit. And what another session that a
/// snapshot has passed has in progress begins at the snapshot's begin stamp or later, and what it has committed is safe.
pub fn backs_are_kept()
    ensures seats { (c d : Core) (seat : ℕ) (kind : Kind) → Sound c → after_event c seat kind ≡ Some d
        → (p : ℕ) → OwnBack p (d.seats p) }
    ensures pairs { (c d : Core) (seat : ℕ) (kind : Kind) → Sound c → after_event c seat kind ≡ Some d
        → (p q : ℕ) → p ≢ q → Back (d.seats p) q (d.seats q) }
{}

/// And to one in which the begin word of each snapshot is its begin stamp.
pub fn snapshots_stay_raised()
    ensures { (c d : Core) (seat : ℕ) (kind : Kind) → Sound c → after_event c seat kind ≡ Some d → (p : ℕ) → OwnRaised (d.seats p) }
{}
