//! The law of the log's blocks: the words of each decided transaction are the spelling of its block. Each law is the contract of a
//! function that does nothing.
#![tactic(auto)]

ghost use Rattle.std.specs.Prelude.{◌≡◌, ℕ, Some};
ghost use Rattle.erm_machine.specs.declared.event.Kind.{Kind};
ghost use Rattle.erm_machine.specs.Core.{Core, opening_state};
ghost use Rattle.erm_machine.specs.Sound.{Sound};
ghost use Rattle.erm_machine.specs.Step.{after_event};
ghost use Rattle.erm_model.specs.Rows.{Rows};
ghost use Rattle.erm_machine.specs.declared.attempt.Attempt.{Attempt};
ghost use Rattle.erm_machine.specs.Facts.{all_of};
ghost use Rattle.erm_model.specs.Member.{◌∈◌};
ghost use Rattle.erm_core_blocks.specs.Spelled.{AreSpelled, DecidesSpelled, HasBlock, SameBlock};

/// From a sound state in which each decided transaction is spelled each event of each seat leads to such a one, where the event
/// decides a spelled transaction alone.
pub fn blocks_stay_spelled()
    ensures { (c d : Core) (seat : ℕ) (kind : Kind) → Sound c → AreSpelled c → DecidesSpelled c seat kind
        → after_event c seat kind ≡ Some d → AreSpelled d }
{}

/// In an opening's state no transaction is decided.
pub fn openings_are_spelled()
    ensures { (sessions : ℕ) (rows : Rows) (tail run first cells : ℕ) → AreSpelled (opening_state sessions rows tail run first cells) }
{}

/// After each event of a sound state each seat still has its decided transactions, in progress or over, with the same blocks.
pub fn decided_transactions_stay()
    ensures { (c d : Core) (seat : ℕ) (kind : Kind) → Sound c → after_event c seat kind ≡ Some d
        → (q : ℕ) (t : Attempt) → t ∈ all_of (c.seats q) → HasBlock t.decision → (u : Attempt) × (u ∈ all_of (d.seats q)) × SameBlock t u }
{}
