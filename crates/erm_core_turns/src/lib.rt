//! The laws of the flush seat's calls: what they leave of the sessions and of the log, and that the log of a state is one. Each law
//! is the contract of a function that does nothing.
#![tactic(auto)]

ghost use Rattle.std.specs.Prelude.{◌≡◌, ℕ};
ghost use Rattle.erm_machine.specs.Core.{Core};
ghost use Rattle.erm_core_turns.specs.Turns.{Flushes, log_of};
ghost use Rattle.erm_core_turns.specs.Turns as turns;
ghost use Rattle.erm_core_view.specs.Views.{IsQuiet, view_of};
ghost use Rattle.erm_sound.specs.Kept.{SoundUnder};
ghost use Rattle.erm_world.specs.Log.{IsLog};
ghost use Rattle.erm_world.specs.Whole.{IsLogOf};

use erm_model::RowLaw;

/// Steps of the flush seat leave how the world was opened, and its log but for what is gathered, flushed and pinned.
pub fn turns_keep_the_log()
    ensures log { (sessions : ℕ) (c d : Core) → IsQuiet sessions c → Flushes c d → log_of sessions d ≡ turns.log_after sessions c d }
    ensures opening { (sessions : ℕ) (c d : Core) → Flushes c d → (view_of sessions d).opening ≡ (view_of sessions c).opening }
{}

/// The log of a quiet sound state is a log, and that of its view: the blocks gathered are a chain of the log list from the opening's
/// place on, each that of a transaction that is over, and what isn't decided is what the sessions have sealed.
pub fn states_have_logs<L: RowLaw>()
    ensures is { (sessions : ℕ) (c : Core) → SoundUnder L.law c → IsQuiet sessions c → IsLog L.law.meets (log_of sessions c) }
    ensures of_view { (sessions : ℕ) (c : Core) → SoundUnder L.law c → IsQuiet sessions c → IsLogOf (view_of sessions c) (log_of sessions c) }
{
    erm_log_list::blocks_are_a_log_list::<L>();
    erm_log_list::logs_go_on::<L>();
    erm_core_view::views_are_serializable::<L>();
}
