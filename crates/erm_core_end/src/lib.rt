//! The laws of the end: the view of a quiet sound state is a world in which all may end, and so is what any sound state shows. Each law is the
//! contract of a function that does nothing.
#![tactic(auto)]

ghost use Rattle.std.specs.Prelude.{ℕ};
ghost use Rattle.erm_machine.specs.Core.{Core};
ghost use Rattle.erm_node.specs.Sound.{sound_law};
ghost use Rattle.erm_sound.specs.Kept.{SoundUnder};
ghost use Rattle.erm_core_alone.specs.Alone.{ClaimsStandAlone};
ghost use Rattle.erm_core_shown.specs.Shown.{HasOnly, shown_of};
ghost use Rattle.erm_core_view.specs.Views.{IsQuiet, view_of};
ghost use Rattle.erm_lines_at_once.specs.Ends.{IsEnd};

use erm_node::SoundRows;

/// A quiet sound state of rows that are trees, in which claims stand alone, is a world in which all sessions may end: what they have
/// committed is serializable; those that were excluded after their seals have the numbers of the whole history, and claims that no commit
/// came between; and the log is no longer than their blocks may be.
pub fn views_may_end()
    ensures { (sessions : ℕ) (c : Core) → SoundUnder sound_law c → ClaimsStandAlone c → IsQuiet sessions c → IsEnd (view_of sessions c) }
{
    erm_core_view::views_have_the_history();
    erm_core_view::views_are_serializable::<SoundRows>();
    erm_core_met::numbers_are_of_commits();
    erm_core_alone::claims_are_exclusive();
}

/// So is what a sound state shows, whatever its seats are in the middle of, where claims stand alone and sessions alone have transactions.
pub fn shown_worlds_may_end()
    ensures { (sessions : ℕ) (c : Core) → SoundUnder sound_law c → ClaimsStandAlone c → HasOnly sessions c → IsEnd (shown_of sessions c) }
{
    erm_core_shown::states_show_the_history();
    erm_core_shown::states_are_serializable::<SoundRows>();
    erm_core_met::numbers_are_of_commits();
    erm_core_alone::claims_are_exclusive();
}
