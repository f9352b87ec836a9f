//! The laws of what a seat's transactions have in order, and of the law of rows that they keep. Each law is the contract of a
//! function that does nothing.
#![tactic(auto)]

ghost use Rattle.std.specs.Prelude.{◌≡◌, ◌≤◌, ℕ, Some};
ghost use Rattle.erm_machine.specs.declared.event.Kind.{Kind};
ghost use Rattle.erm_machine.specs.Core.{Core, opening_state};
ghost use Rattle.erm_machine.specs.Lawful.{DrawsLawfully, Lawful};
ghost use Rattle.erm_machine.specs.Lives.{OwnLives};
ghost use Rattle.erm_machine.specs.Sound.{Sound};
ghost use Rattle.erm_machine.specs.Step.{after_event};
ghost use Rattle.erm_model.specs.Rows.{Rows};

use erm_model::RowLaw;

/// From a sound state each event of each seat leads to one in which each seat writes the opening's run, and its transactions
/// begin at the opening's place or above, one above the stamps of those before, and have the numbers from 1 on.
pub fn lives_are_kept()
    ensures seats { (c d : Core) (seat : ℕ) (kind : Kind) → Sound c → after_event c seat kind ≡ Some d
        → (p : ℕ) → OwnLives d.shared p (d.seats p) }
{}

/// From a sound state whose rows keep a law each event of each seat leads to one whose rows keep it, where the event draws a
/// range for a lawful transaction alone.
pub fn law_is_kept<L: RowLaw>()
    ensures { (c d : Core) (seat : ℕ) (kind : Kind) → Sound c → Lawful L.law c.shared c.seats → DrawsLawfully L.law c seat kind
        → after_event c seat kind ≡ Some d → Lawful L.law d.shared d.seats }
{}

/// An opening's state keeps a law of rows that its rows meet, where they reach no object from its first number on.
pub fn openings_are_lawful<L: RowLaw>()
    ensures { (sessions : ℕ) (rows : Rows) (tail run first cells : ℕ) → L.law.meets rows
        → ((oid : ℕ) → first ≤ oid → L.law.reach rows oid ≡ 0)
        → Lawful L.law (opening_state sessions rows tail run first cells).shared (opening_state sessions rows tail run first cells).seats }
{
    L::respects_rows();
}
