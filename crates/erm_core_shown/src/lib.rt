//! The machine's state as a world of sessions, whatever its seats are in the middle of: its laws are those of sound states. Each law is the
//! contract of a function that does nothing.
#![tactic(auto)]

ghost use Rattle.std.specs.Prelude.{◌≡◌, ◌<◌, ◌≤◌, ℕ, Some};
ghost use Rattle.erm_machine.specs.declared.event.Kind.{Kind};
ghost use Rattle.erm_machine.specs.declared.limits.TheConstants.{OBJECT_LIMIT, SESSIONS};
ghost use Rattle.erm_machine.specs.declared.part.Part.{Part};
ghost use Rattle.erm_machine.specs.Core.{Core, opening_state};
ghost use Rattle.erm_machine.specs.Decided as machine;
ghost use Rattle.erm_machine.specs.Sound.{Sound};
ghost use Rattle.erm_machine.specs.Step.{after_event};
ghost use Rattle.erm_sound.specs.Kept.{SoundUnder};
ghost use Rattle.erm_core_view.specs.Views.{IsBetween, session_of};
ghost use Rattle.erm_core_shown.specs.Shown.{HasOnly, NoneElse, shown_of, shown_session};
ghost use Rattle.erm_model.specs.Rows.{Rows};
ghost use Rattle.erm_world.specs.Laws.{IsSerializable};
ghost use Rattle.erm_world.specs.World as world;

use erm_model::RowLaw;

/// What a state has committed is what it shows; and between two calls a session shows what it does in the state's view.
pub fn states_show_the_history()
    ensures history { (sessions : ℕ) (c : Core) → Sound c → HasOnly sessions c
        → world.history_of (shown_of sessions c) ≡ machine.history_of c.seats }
    ensures between { (x : Part) → IsBetween x.place x.task → shown_session x ≡ session_of x }
{}

/// A sound state is a world whose commits are a certified snapshot history, each of whose transactions saw its snapshot, and whose rows
/// keep the law. No seat need be between two calls.
pub fn states_are_serializable<L: RowLaw>()
    ensures { (sessions : ℕ) (c : Core) → SoundUnder L.law c → HasOnly sessions c → IsSerializable L.law (shown_of sessions c) }
{
    states_show_the_history();
    erm_core_ssn::commits_are_certified();
    erm_core_ssn::commits_are_a_snapshot_history();
    erm_core_ssn::reads_and_claims_are_snapshots();
}

/// A table's first state has no transaction, and from a sound state each event of each seat leaves seats without words without one. So none but the
/// sessions', and the flusher, ever has one.
pub fn sessions_alone_have_transactions()
    ensures first { (sessions : ℕ) (rows : Rows) (tail run first cells : ℕ) → NoneElse (opening_state sessions rows tail run first cells) }
    ensures event { (c d : Core) (seat : ℕ) (kind : Kind) → Sound c → NoneElse c → after_event c seat kind ≡ Some d → NoneElse d }
    ensures only { (c : Core) → Sound c → NoneElse c → HasOnly SESSIONS c }
{}

/// In a sound state each object whose number was drawn, from the opening's first on and below the limit, was made by some session.
pub fn drawn_objects_are_shown()
    ensures { (sessions oid : ℕ) (c : Core) → Sound c → HasOnly sessions c → c.shared.first ≤ oid → oid < c.shared.objects_drawn → oid < OBJECT_LIMIT
        → 0 < world.made_by_all (shown_of sessions c) oid }
{}
