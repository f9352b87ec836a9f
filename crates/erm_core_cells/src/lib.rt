//! The laws of what is drawn and handed on: each event keeps counters, the one place of each cell, and chains. Each law is the
//! contract of a function that does nothing.
#![tactic(auto)]

ghost use Rattle.std.specs.Prelude.{◌≡◌, ◌≢◌, ℕ, Some};
ghost use Rattle.erm_machine.specs.declared.event.Kind.{Kind};
ghost use Rattle.erm_machine.specs.Attached.{OwnAttached};
ghost use Rattle.erm_machine.specs.Cells.{Cells, OwnCells};
ghost use Rattle.erm_machine.specs.Chains.{Chains, OwnChains};
ghost use Rattle.erm_machine.specs.Core.{Core};
ghost use Rattle.erm_machine.specs.Numbers.{Counters, OwnMade, MadeApart};
ghost use Rattle.erm_machine.specs.Sound.{Sound};
ghost use Rattle.erm_machine.specs.Step.{after_event};

/// From a sound state each event of each seat leads to one whose counters don't wrap, in which each object made was drawn and
/// made once, and each number of an object that was drawn was made.
pub fn numbers_are_kept()
    ensures counters { (c d : Core) (seat : ℕ) (kind : Kind) → Sound c → after_event c seat kind ≡ Some d
        → Counters d.shared d.seats }
    ensures seats { (c d : Core) (seat : ℕ) (kind : Kind) → Sound c → after_event c seat kind ≡ Some d
        → (p : ℕ) → OwnMade d.shared p (d.seats p) }
    ensures pairs { (c d : Core) (seat : ℕ) (kind : Kind) → Sound c → after_event c seat kind ≡ Some d
        → (p q : ℕ) → p ≢ q → MadeApart (d.seats p) (d.seats q) }
{}

/// From a sound state each event of each seat leads to one in which each cell drawn stands once, in one chain or among one
/// seat's own.
pub fn cells_are_kept()
    ensures shared { (c d : Core) (seat : ℕ) (kind : Kind) → Sound c → after_event c seat kind ≡ Some d
        → Cells d.shared d.seats }
    ensures seats { (c d : Core) (seat : ℕ) (kind : Kind) → Sound c → after_event c seat kind ≡ Some d
        → (p : ℕ) → OwnCells (d.seats p) }
{}

/// From a sound state each event of each seat leads to one whose links name the next older versions' cells, as do the versions
/// in hand, and in which what a begin may still read isn't cut off.
pub fn chains_are_kept()
    ensures shared { (c d : Core) (seat : ℕ) (kind : Kind) → Sound c → after_event c seat kind ≡ Some d
        → Chains d.shared }
    ensures seats { (c d : Core) (seat : ℕ) (kind : Kind) → Sound c → after_event c seat kind ≡ Some d
        → (p : ℕ) → OwnChains d.shared (d.seats p) }
    ensures attached { (c d : Core) (seat : ℕ) (kind : Kind) → Sound c → after_event c seat kind ≡ Some d
        → (p : ℕ) → OwnAttached d.shared (d.seats p) }
{}
