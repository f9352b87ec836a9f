//! The laws of the log's words: each event keeps what a sound state says of the places flushed and gathered, and of the ring, and
//! that transactions begin where ranges end. Each law is the contract of a function that does nothing.
#![tactic(auto)]

ghost use Rattle.std.specs.Prelude.{◌≡◌, ◌≤◌, ℕ, Some};
ghost use Rattle.erm_machine.specs.declared.event.Kind.{Kind};
ghost use Rattle.erm_machine.specs.Core.{Core};
ghost use Rattle.erm_machine.specs.Log.{Log, OwnLog};
ghost use Rattle.erm_machine.specs.Sound.{Sound};
ghost use Rattle.erm_machine.specs.Step.{after_event};
ghost use Rattle.erm_core_ring.specs.Begins.{BeginAtEnds};

/// From a sound state each event of each seat leads to one whose log fits: all below the place gathered is decided, and the ring
/// has the words of the blocks.
pub fn log_is_kept()
    ensures shared { (c d : Core) (seat : ℕ) (kind : Kind) → Sound c → after_event c seat kind ≡ Some d
        → Log d.shared d.seats }
    ensures seats { (c d : Core) (seat : ℕ) (kind : Kind) → Sound c → after_event c seat kind ≡ Some d
        → (p : ℕ) → OwnLog d.shared p (d.seats p) }
{}

/// From a sound state whose transactions in progress begin where ranges of the log end each event of each seat leads to such a one.
pub fn begins_stay_at_ends()
    ensures { (c d : Core) (seat : ℕ) (kind : Kind) → Sound c → BeginAtEnds c → after_event c seat kind ≡ Some d → BeginAtEnds d }
{}
