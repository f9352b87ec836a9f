//! Programs on threads, from the opening of a table to its close.
ghost use Rattle.std.specs.Prelude.{◌≡◌, ℕ, ◌+◌, ◌<◌, ◌≤◌, IfErr, IfOk, IfSome, vec_len, []};
ghost use Rattle.erm_ckpt.specs.declared.slot.TheConstants.{LOG_START};
ghost use Rattle.erm_client_beside.specs.Ran.{RanBeside};
ghost use Rattle.erm_desk.specs.Desk.{IsHeld};
ghost use Rattle.erm_engine.specs.Opened.{IsOpened, opened_view};
ghost use Rattle.erm_model.specs.declared.limits.TheConstants.{LAST_RUN, OID_LIMIT, SESSIONS, STOP};
ghost use Rattle.erm_model.specs.RowTransaction.{SameLaw};
ghost use Rattle.erm_model.specs.Rows.{rows_of};
ghost use Rattle.erm_node.specs.Sound.{sound_law};
ghost use Rattle.erm_rule.specs.Openings.{start_of};

use crate::ran::ProgramsRan;
use crate::room::make_ready;
use crate::work::work_beside;
use erm_client_threads::Program;
use erm_desk::{Desk, Naming};
use erm_engine::{Opened, end_all, open};
use erm_model::{RowLaw, Seat};
use erm_outside::{Disk, Gate};
use erm_rule::Opening;
use erm_run_beside::{SharedDesk, close_sessions};
use std::alloc::{AllocError, Global};
use std::marker::Brand;
use std::sync::atomic::AtomicU64;
use std::sync::ledger::{Blank, Ledger};
use std::sync::{Mutex, Wait};
use std::thread::Threads;

/// Programs run with the sessions of a table just opened, and the table is closed behind them: all threads agree on the table, on how it was opened, on
/// what the disk told, and on the ledger of what clients meet, which has a part for each. The disk comes back, and so do the programs; `Err` where there
/// was no memory for a desk, or for the programs' jobs: then nothing was done.
pub fn run_opened_programs<
    L: RowLaw + Send + Sync,
    D: Disk + Drop + Send,
    B: Naming + Ledger + Send,
    G: Gate + Sync,
    R: Threads + Wait + Sync,
    P: Program + Send + Drop,
>(
    rt: &R,
    alloc: Global,
    opening: &Opening,
    opened: Opened<L>,
    disk: D,
    gate: &G,
    blank: Blank,
    programs: Vec<P>,
) -> (D, Result<ProgramsRan<P>, Vec<P>>)
    requires law { SameLaw L.law sound_law }
    requires ledger { (blank.name ≡ B.name) × (blank.parts ≡ B.parts) }
    requires shares { vec_len programs ≤ blank.parts }
    requires table { opened.table.words.shared.table_id ≡ B.table }
    requires start { start_of opening.now ≡ B.start }
    requires began { D.told disk ≡ B.began }
    requires faults { D.faults disk ≡ B.faults }
    requires opened { IsOpened L.law opening.now (vec_len programs) opened }
    requires few { vec_len programs ≤ SESSIONS }
    requires behind { LOG_START < opening.now.tail }
    requires low { opening.now.tail ≤ STOP + 4 }
    requires run_high { opening.now.run ≤ LAST_RUN }
    requires meets { L.law.meets (opened_view (start_of opening.now)).opening.rows }
    requires holds { IfSome (D.told disk) (IsHeld L.law (start_of opening.now) []) }
    ensures ran { IfOk result.1 (λ ran. RanBeside P.promises L.law opening.now B.began B.faults programs.items (D.told result.0) (D.faults result.0) ran.failed ran.programs.items) }
    ensures back { IfErr result.1 (λ back. (D.told result.0 ≡ D.told disk) × (D.faults result.0 ≡ D.faults disk) × (back ≡ programs)) }
{
    let Opened {
        table,
        sessions,
        idle,
        flush,
    } = opened;
    let (flusher, room) = match make_ready(alloc, programs.len()) {
        Ok(ready) => ready,
        Err(AllocError) => {
            end_all(sessions);
            return (disk, Err(programs));
        }
    };
    let (book, mut met) = blank.open::<B>();
    let desk = Desk::<L, D, B>::with(flusher, disk, flush);
    let desk = Mutex::new(SharedDesk::new(desk, book));
    let halt = AtomicU64::new(0);
    let begun = AtomicU64::new(0);
    let (sessions, programs) = work_beside(
        rt, alloc, opening, &table, &desk, gate, &halt, &begun, &mut met, sessions, programs, room,
    );
    let desk = desk.into_inner().into_desk(&mut met);
    let (disk, failed) = close_sessions(opening, table, desk, sessions, idle);
    (disk, Ok(ProgramsRan { failed, programs }))
}

/// Opens a table, runs each program with the client of a session of its own, on a thread of its own where one can be made, and closes the table behind
/// them. The disk holds the log as far as the opening; behind that it has blocks that were decided, in order, as far as turns of the desk wrote them. The
/// disk comes back, and so do the programs; `Err` where memory ran out before the first ran: then nothing was done.
pub fn run_programs<
    L: RowLaw + Send + Sync,
    D: Disk + Drop + Send,
    G: Gate + Sync,
    R: Threads + Wait + Sync,
    P: Program + Send + Drop,
>(
    rt: &R,
    alloc: Global,
    opening: &Opening,
    disk: D,
    gate: &G,
    programs: Vec<P>,
) -> (D, Result<ProgramsRan<P>, Vec<P>>)
    requires law { SameLaw L.law sound_law }
    requires few { vec_len programs ≤ SESSIONS }
    requires none { opening.now.sessions ≡ 0 }
    requires behind { LOG_START < opening.now.tail }
    requires low { opening.now.tail ≤ STOP + 4 }
    requires run_high { opening.now.run ≤ LAST_RUN }
    requires first { opening.now.first ≤ OID_LIMIT }
    requires rows { vec_len opening.now.rows ≡ OID_LIMIT }
    requires meets { L.law.meets (rows_of opening.now.rows.items) }
    requires unreached { (oid : ℕ) → opening.now.first ≤ oid → L.law.reach (rows_of opening.now.rows.items) oid ≡ 0 }
    requires holds { IfSome (D.told disk) (IsHeld L.law (start_of opening.now) []) }
    ensures ran { IfOk result.1 (λ ran. RanBeside P.promises L.law opening.now (D.told disk) (D.faults disk) programs.items (D.told result.0) (D.faults result.0) ran.failed ran.programs.items) }
    ensures back { IfErr result.1 (λ back. (D.told result.0 ≡ D.told disk) × (D.faults result.0 ≡ D.faults disk) × (back ≡ programs)) }
{
    L::respects_rows();
    match open::<L>(alloc, opening, programs.len() as Seat) {
        Ok(opened) => {
            let blank = Blank::new(programs.len() as u64);
            run_opened_programs::<L, D, Brand, G, R, P>(
                rt, alloc, opening, opened, disk, gate, blank, programs,
            )
        }
        Err(AllocError) => (disk, Err(programs)),
    }
}
