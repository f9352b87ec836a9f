//! The law of the machine's log: each event keeps the ranges. It is the contract of a function that does nothing.
#![tactic(auto)]

ghost use Rattle.std.specs.Prelude.{◌≡◌, ℕ, Some};
ghost use Rattle.erm_machine.specs.declared.event.Kind.{Kind};
ghost use Rattle.erm_machine.specs.Core.{Core};
ghost use Rattle.erm_machine.specs.Ranges.{Ranges, OwnRanges};
ghost use Rattle.erm_machine.specs.Sound.{Sound};
ghost use Rattle.erm_machine.specs.Step.{after_event};

/// From a sound state each event of each seat leads to one whose ranges lie end to end up to the tail, which stays below
/// 2^61, and are those of the seats' transactions.
pub fn ranges_are_kept()
    ensures shared { (c d : Core) (seat : ℕ) (kind : Kind) → Sound c → after_event c seat kind ≡ Some d
        → Ranges d.shared d.seats }
    ensures seats { (c d : Core) (seat : ℕ) (kind : Kind) → Sound c → after_event c seat kind ≡ Some d
        → (p : ℕ) → OwnRanges d.shared p (d.seats p) }
{}
