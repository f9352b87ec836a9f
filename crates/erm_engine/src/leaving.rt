//! Sessions that are given up before their table is closed.
ghost use Rattle.std.specs.Prelude.{◌≡◌};
ghost use Rattle.erm_engine.specs.Closed.{AllIdle};
ghost use Rattle.erm_machine.specs.declared.limits.TheConstants.{FLUSH_SEAT};
ghost use Rattle.erm_machine.specs.declared.place.Place.TheVariants.{Idle};
ghost use Rattle.erm_ring.specs.Turns.{MayGather};
ghost use Rattle.erm_rule.specs.Steps.{Fits};
ghost use Rattle.erm_rule.specs.Views.{MayJoin, part_of, view};
ghost use Rattle.erm_shared_session.specs.Stands.{Stands};

use erm_beside::{SafeSession, SharedSession};
use erm_model::{Phase, RowLaw};
use erm_rule::{Pass, Table};
use erm_shared_session::TableSession;

/// Gives up sessions that are idle.
pub fn end_all<L: RowLaw>(mut sessions: Vec<TableSession<L>>)
    requires idle { AllIdle sessions.items }
{
    while let Some(session) = sessions.pop() {
        session.into_pass();
    }
    sessions.destroy_empty();
}

/// Gives up a session, wherever it stands: a transaction in progress is aborted, a snapshot is ended, and one that is sealed stays undecided.
/// The pass of the flush seat, between two of its turns, takes in the session's, and may close the table.
pub fn leave<L: RowLaw>(table: &Table<L>, flush: &mut Pass, mut session: TableSession<L>)
    requires stands { Stands L.law table.now session }
    requires fits { Fits table.now.words.shared.table_id flush.old }
    requires gathers { MayGather (view flush.old) }
    requires joins { MayJoin (view flush.old) }
    ensures fits { Fits table.now.words.shared.table_id flush.new }
    ensures gathers { MayGather (view flush.new) }
    ensures joins { MayJoin (view flush.new) }
    ensures unpinned { (part_of (view flush.old) FLUSH_SEAT).place ≡ Idle → (part_of (view flush.new) FLUSH_SEAT).place ≡ Idle }
{
    match session.phase(table) {
        Phase::Active => session.abort(table),
        Phase::Pending | Phase::Safe => session.end_safe(table),
        Phase::Idle | Phase::Sealed => {}
    }
    session.join_into(table, flush);
}
