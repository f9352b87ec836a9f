//! The log of a table that was closed behind sessions on threads: its blocks are those that the flush seat's book knows, and the ranges that
//! transactions take of it stand apart. Each law is the contract of a function that does nothing.
#![tactic(auto)]

ghost use Rattle.std.specs.Prelude.{◌≡◌, ℕ, List};
ghost use Rattle.erm_block.specs.declared.block.Block.{Block};
ghost use Rattle.erm_closed_log.specs.Closed.{HasLog, WasClosed};
ghost use Rattle.erm_core_shown.specs.Shown.{shown_of};
ghost use Rattle.erm_core_view.specs.Views.{IsQuiet};
ghost use Rattle.erm_machine.specs.Core.{Core};
ghost use Rattle.erm_rule.specs.declared.view.Book.{Book};
ghost use Rattle.erm_rule.specs.declared.view.Start.{Start};
ghost use Rattle.erm_sound.specs.Kept.{SoundUnder};
ghost use Rattle.erm_told_crash.specs.Laws.{StandApart};
ghost use Rattle.erm_world.specs.Log.{gathered_to};

use erm_model::RowLaw;

/// A table that was closed has a log, and its blocks are those that the book knows, flushed or tried: the log is that of what the last state shows, so
/// each block is that of a session's transaction that is over, and what isn't decided is what sessions have sealed. Where it is flushed to its end,
/// it is gathered to its end.
pub fn closed_tables_have_logs<L: RowLaw>()
    ensures log { (o : Start) (b : Book) (blocks tried : List Block) (core : Core) → WasClosed L.law o b blocks tried core → HasLog L.law o blocks tried core }
    ensures whole { (o : Start) (blocks tried : List Block) (core : Core) → (has : HasLog L.law o blocks tried core) → core.shared.flushed ≡ core.shared.tail
        → gathered_to has.log ≡ has.log.tail }
{
    erm_core_view::steps_change_one_session();
    erm_core_turns::states_have_logs::<L>();
    erm_log_list::blocks_are_a_log_list::<L>();
    erm_log_list::logs_go_on::<L>();
    erm_block::one_spelling();
}

/// In a sound state in which each session is between two calls, the ranges that transactions take of the log stand apart: of two, the one with the
/// smaller stamp ends at or below the other's; and each ends within the log.
pub fn ranges_of_closed_tables_stand_apart<L: RowLaw>()
    ensures { (sessions : ℕ) (core : Core) → SoundUnder L.law core → IsQuiet sessions core → StandApart (shown_of sessions core) }
{}
