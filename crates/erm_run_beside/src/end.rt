//! The end of sessions that ran: all passes are joined into the desk's, it takes its last turns, and the table is closed.
ghost use Rattle.std.specs.Prelude.{◌≡◌, ◌<◌, ◌≤◌, ℕ, List, length, true, vec_len};
ghost use Rattle.erm_ckpt.specs.declared.slot.TheConstants.{LOG_START};
ghost use Rattle.erm_engine.specs.Closed.{AllRest, AreDone};
ghost use Rattle.erm_engine.specs.Opened.{AreIdle, opened_view};
ghost use Rattle.erm_model.specs.declared.limits.TheConstants.{LAST_RUN, SESSIONS};
ghost use Rattle.erm_rule.specs.Openings.{start_of};
ghost use Rattle.erm_script.specs.declared.script.ScriptLine.{ScriptLine};
ghost use Rattle.erm_world.specs.Laws.{IsSerializable};
ghost use Rattle.erm_run_beside.specs.Closing.{ClosesDesk};
ghost use Rattle.erm_run_beside.specs.Ended.{AreWholeUnless, AreWorked, HaveWorked};
ghost use Rattle.erm_run_beside.specs.Runs.{IsRoomFor, RanBeside};

use crate::apart::Apart;
use crate::work::Ran;
use erm_desk::{Desk, Naming, desks_take_in};
use erm_engine::{close_joined, join_all};
use erm_model::RowLaw;
use erm_outside::Disk;
use erm_rule::{Opening, Pass, Table};
use erm_shared_session::TableSession;
use erm_threads::Done;

/// Joins the passes of sessions into the desk's, takes turns until one stops, and closes the table: the disk, and whether it failed.
pub fn close_sessions<L: RowLaw, D: Disk + Drop, B: Naming>(
    _opening: &Opening,
    table: Table<L>,
    desk: Desk<L, D, B>,
    sessions: Vec<TableSession<L>>,
    idle: Vec<Pass>,
) -> (D, bool)
    requires key { table.words.shared.key ≡ _opening.now }
    requires start { start_of _opening.now ≡ B.start }
    requires table { table.words.shared.table_id ≡ B.table }
    requires behind { LOG_START < _opening.now.tail }
    requires run_high { _opening.now.run ≤ LAST_RUN }
    requires sessions { AreDone L.law table sessions.items }
    requires rests { AllRest sessions.items }
    requires idle { (run : ℕ) × (place : ℕ) × AreIdle table.words.shared.table_id run place (length sessions.items) SESSIONS idle.items }
    ensures closes { ClosesDesk L.law _opening.now B.began B.faults sessions.items (D.told result.0) (D.faults result.0) result.1 }
    ensures failed { desk.failed ≡ true → result.1 ≡ true }
{
    erm_core_stays::decided_blocks_stay();
    desks_take_in::<L>();
    let (disk, mut pass, flusher) = desk.into_parts();
    join_all(&table, &mut pass, sessions, idle);
    let mut desk = Desk::<L, D, B>::of_parts(disk, pass, flusher);
    desk.turn_all(&table);
    let (disk, pass, flusher) = desk.into_parts();
    close_joined(table, pass);
    (disk, flusher.has_failed())
}

/// Closes the table of sessions that worked, behind the last turns of the desk: the work of each, in order.
pub(crate) fn end_sessions<L: RowLaw, D: Disk + Drop, B: Naming>(
    opening: &Opening,
    table: Table<L>,
    desk: Desk<L, D, B>,
    done: Vec<Done<TableSession<L>>>,
    idle: Vec<Pass>,
    mut apart: Apart<TableSession<L>>,
) -> (D, Ran)
    requires key { table.words.shared.key ≡ opening.now }
    requires start { start_of opening.now ≡ B.start }
    requires table { table.words.shared.table_id ≡ B.table }
    requires behind { LOG_START < opening.now.tail }
    requires run_high { opening.now.run ≤ LAST_RUN }
    requires begins { IsSerializable L.law (opened_view (start_of opening.now)) }
    requires worked { HaveWorked L.law table opening.now done.items }
    requires room { IsRoomFor (vec_len done) apart }
    requires idle { (run : ℕ) × (place : ℕ) × AreIdle table.words.shared.table_id run place (length done.items) SESSIONS idle.items }
    ensures ran { (parts : List (List ScriptLine)) → AreWorked L.law table opening.now parts done.items → AreWholeUnless (result.1.failed ≡ true) parts done.items
        → RanBeside L.law opening.now B.began B.faults parts (D.told result.0) (D.faults result.0) result.1.failed result.1.sessions.items }
    ensures failed { desk.failed ≡ true → result.1.failed ≡ true }
{
    apart.take(done);
    let Apart { sessions, works } = apart;
    let (disk, failed) = close_sessions(opening, table, desk, sessions, idle);
    let sessions = works;
    (disk, Ran { failed, sessions })
}
