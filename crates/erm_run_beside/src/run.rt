//! Sessions run on threads.
ghost use Rattle.std.specs.Prelude.{◌≡◌, ◌<◌, ◌≤◌, [], map, vec_capacity, vec_len};
ghost use Rattle.std.specs.List.{All};
ghost use Rattle.erm_engine.specs.Opened.{AreNew};
ghost use Rattle.erm_model.specs.declared.limits.TheConstants.{SESSIONS};
ghost use Rattle.erm_model.specs.RowTransaction.{SameLaw};
ghost use Rattle.erm_node.specs.Sound.{sound_law};
ghost use Rattle.erm_run_beside.specs.Jobs.{AreLines, HasRoom};
ghost use Rattle.erm_run_beside.specs.Ended.{AreWholeUnless, AreWorked};

use crate::back::take_back;
use crate::jobs::{Room, make_jobs};
use crate::shared::SharedDesk;
use crate::turns::DeskTurns;
use erm_desk::Naming;
use erm_model::RowLaw;
use erm_outside::{Disk, Gate};
use erm_rule::{Opening, Table};
use erm_shared_session::TableSession;
use erm_threads::{Done, work_all};
use std::alloc::Global;
use std::sync::atomic::AtomicU64;
use std::sync::ledger::{Ledger, Share};
use std::sync::{Mutex, Wait};
use std::thread::Threads;

/// Each session of a table just opened runs its lines, on a thread of its own where one can be made, while any of them takes turns of the
/// desk: the sessions after their workers, in the order of their seats. Each worker has a part of the share, and what all of them have met is
/// put together in it: each session whose memory sufficed is whole, unless one has met that the disk failed.
pub(crate) fn work_beside<
    'a,
    L: RowLaw + Send + Sync,
    D: Disk + Drop + Send,
    B: Naming + Ledger + Send,
    G: Gate + Sync,
    R: Threads + Wait + Sync,
>(
    rt: &'a R,
    alloc: Global,
    _opening: &Opening,
    table: &'a Table<L>,
    desk: &'a Mutex<SharedDesk<L, D, B>>,
    gate: &'a G,
    halt: &'a AtomicU64,
    begun: &'a AtomicU64,
    met: &mut Share<B>,
    sessions: Vec<TableSession<L>>,
    room: Room<TableSession<L>, DeskTurns<'a, L, D, B, G, R>>,
) -> Vec<Done<TableSession<L>>>
    requires law { SameLaw L.law sound_law }
    requires table { table.now.words.shared.table_id ≡ B.table }
    requires new { AreNew L.law table.now _opening.now (vec_len room.parts) sessions.items }
    requires few { vec_len room.parts ≤ SESSIONS }
    requires lines { AreLines (map (λ p. p.lines.items) room.parts.items) }
    requires shares { vec_len room.parts ≤ met.old.parts }
    requires unmet { met.old.amount ≡ 0 }
    requires answers { All HasRoom room.parts.items }
    requires none { (room.jobs.items ≡ []) × (room.done.items ≡ []) }
    requires room { (vec_len room.parts ≤ vec_capacity room.jobs) × (vec_len room.parts ≤ vec_capacity room.done) }
    ensures worked { AreWorked L.law table.now _opening.now (map (λ p. p.lines.items) room.entry.parts.items) result.items }
    ensures whole { AreWholeUnless (0 < met.new.amount) (map (λ p. p.lines.items) room.entry.parts.items) result.items }
{
    let Room {
        parts,
        mut jobs,
        mut done,
    } = room;
    make_jobs(
        rt, table, desk, gate, halt, begun, met, sessions, parts, &mut jobs,
    );
    work_all(rt, alloc, table, jobs.as_mut_slice());
    take_back(jobs, met, &mut done);
    done
}
