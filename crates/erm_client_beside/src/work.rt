//! Programs run on threads.
ghost use Rattle.std.specs.Prelude.{◌≡◌, ◌<◌, ◌≤◌, vec_len};
ghost use Rattle.erm_client_beside.specs.Jobs.{IsRoomFor};
ghost use Rattle.erm_client_beside.specs.Left.{AreLeft};
ghost use Rattle.erm_engine.specs.Opened.{AreNew};
ghost use Rattle.erm_model.specs.declared.limits.TheConstants.{SESSIONS};
ghost use Rattle.erm_model.specs.RowTransaction.{SameLaw};
ghost use Rattle.erm_node.specs.Sound.{sound_law};

use crate::back::take_back;
use crate::jobs::make_jobs;
use crate::ran::ProgramRun;
use crate::room::Room;
use crate::turns::ClientTurns;
use erm_client_threads::{Program, work_all};
use erm_desk::Naming;
use erm_model::RowLaw;
use erm_outside::{Disk, Gate};
use erm_rule::{Opening, Table};
use erm_run_beside::SharedDesk;
use erm_shared_session::TableSession;
use std::alloc::Global;
use std::sync::atomic::AtomicU64;
use std::sync::ledger::{Ledger, Share};
use std::sync::{Mutex, Wait};
use std::thread::Threads;

/// Each program runs with the client of a session of a table just opened, on a thread of its own where one can be made, while any of them takes turns
/// of the desk: the sessions and the programs behind it, in the order of the seats. Each client has a part of the share, and what all of them have met is
/// put together in it.
pub(crate) fn work_beside<
    'a,
    L: RowLaw + Send + Sync,
    D: Disk + Drop + Send,
    B: Naming + Ledger + Send,
    G: Gate + Sync,
    R: Threads + Wait + Sync,
    P: Program + Send + Drop,
>(
    rt: &'a R,
    alloc: Global,
    opening: &Opening,
    table: &'a Table<L>,
    desk: &'a Mutex<SharedDesk<L, D, B>>,
    gate: &'a G,
    halt: &'a AtomicU64,
    begun: &'a AtomicU64,
    met: &mut Share<B>,
    sessions: Vec<TableSession<L>>,
    programs: Vec<P>,
    room: Room<'a, TableSession<L>, ClientTurns<'a, L, D, B, G, R>, P>,
) -> (Vec<TableSession<L>>, Vec<ProgramRun<P>>)
    requires law { SameLaw L.law sound_law }
    requires table { table.now.words.shared.table_id ≡ B.table }
    requires new { AreNew L.law table.now opening.now (vec_len programs) sessions.items }
    requires few { vec_len programs ≤ SESSIONS }
    requires shares { vec_len programs ≤ met.old.parts }
    requires unmet { met.old.amount ≡ 0 }
    requires room { IsRoomFor (vec_len programs) room }
    ensures left { AreLeft L.law table.entry.now opening.now P.promises (0 < met.new.amount) programs.items result.0.items result.1.items }
{
    let Room {
        mut jobs,
        sessions: mut ended,
        mut runs,
    } = room;
    make_jobs(
        rt, alloc, opening, table, desk, gate, halt, begun, met, sessions, programs, &mut jobs,
    );
    work_all(rt, jobs.as_mut_slice());
    take_back(jobs, met, &mut ended, &mut runs);
    (ended, runs)
}
