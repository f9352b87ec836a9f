//! What is so of the world in lists between two calls.
ghost use Rattle.std.specs.Prelude.{ℕ};
ghost use Rattle.erm_lists.specs.Stands.{IsWorld, Stands};

use crate::Lists;
use erm_model::RowLaw;

/// A world that stands between two calls has what each world of sessions has: its commits are serializable, each of its
/// transactions is possible, each safe snapshot stands on a safe stamp, and its log is a log, that of its view; and the law of its
/// rows looks at objects that there may be alone.
pub fn standing_worlds_have_laws<L: RowLaw>()
    ensures { (p : Lists L) → Stands L.law p → IsWorld L.law p }
{
    erm_core_view::views_are_serializable::<L>();
    erm_maps::works_are_possible::<L>();
    erm_core_turns::states_have_logs::<L>();
}
