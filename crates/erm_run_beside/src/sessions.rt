//! Sessions on threads, from the opening of a table to its close.
ghost use Rattle.std.specs.Prelude.{◌≡◌, ℕ, ◌+◌, ◌<◌, ◌≤◌, IfErr, IfOk, IfSome, false, map, vec_len, []};
ghost use Rattle.erm_ckpt.specs.declared.slot.TheConstants.{LOG_START};
ghost use Rattle.erm_desk.specs.Desk.{IsHeld};
ghost use Rattle.erm_engine.specs.Opened.{IsOpened, opened_view};
ghost use Rattle.erm_model.specs.declared.limits.TheConstants.{LAST_RUN, OID_LIMIT, SESSIONS, STOP};
ghost use Rattle.erm_model.specs.RowTransaction.{SameLaw};
ghost use Rattle.erm_model.specs.Rows.{rows_of};
ghost use Rattle.erm_node.specs.Sound.{sound_law};
ghost use Rattle.erm_rule.specs.Openings.{start_of};
ghost use Rattle.erm_run_beside.specs.Jobs.{AreLines, HasAllRoom};
ghost use Rattle.erm_run_beside.specs.Runs.{IsRoomFor, RanBeside};

use crate::apart::Apart;
use crate::end::end_sessions;
use crate::jobs::{Room, make_room};
use crate::run::work_beside;
use crate::shared::SharedDesk;
use crate::work::Ran;
use erm_desk::{Desk, Naming};
use erm_engine::{Opened, end_all, open};
use erm_flush::Flusher;
use erm_model::{RowLaw, Seat};
use erm_outside::{Disk, Gate};
use erm_rule::Opening;
use erm_script::ScriptLine;
use std::alloc::{AllocError, Global};
use std::marker::Brand;
use std::sync::atomic::AtomicU64;
use std::sync::ledger::{Blank, Ledger};
use std::sync::{Mutex, Wait};
use std::thread::Threads;

// A flusher, and all room that sessions with these lines need, before their workers and behind them.
fn make_ready<S, T>(
    alloc: Global,
    parts: Vec<Vec<ScriptLine>>,
) -> Result<(Flusher, Apart<S>, Room<S, T>), AllocError>
    ensures new { IfOk result (λ ready. ready.0 ≡ false) }
    ensures apart { IfOk result (λ ready. IsRoomFor (vec_len parts) ready.1) }
    ensures room { IfOk result (λ ready. HasAllRoom parts ready.2) }
{
    let flusher = Flusher::new(alloc)?;
    let apart = Apart::room(alloc, parts.len())?;
    match make_room(alloc, parts) {
        Ok(room) => Ok((flusher, apart, room)),
        Err(lack) => {
            apart.give_up();
            Err(lack)
        }
    }
}

/// The sessions of a table just opened run their lines, and the table is closed behind them: all threads agree on the table, on how it was
/// opened, on what the disk told, and on the ledger of what workers meet, which has a part for each session. The disk comes back; `Err` where
/// there was no memory for a desk, or for the sessions' work: then nothing was done to it.
pub fn run_opened<
    L: RowLaw + Send + Sync,
    D: Disk + Drop + Send,
    B: Naming + Ledger + Send,
    G: Gate + Sync,
    R: Threads + Wait + Sync,
>(
    rt: &R,
    alloc: Global,
    opening: &Opening,
    opened: Opened<L>,
    disk: D,
    gate: &G,
    blank: Blank,
    parts: Vec<Vec<ScriptLine>>,
) -> (D, Result<Ran, AllocError>)
    requires law { SameLaw L.law sound_law }
    requires ledger { (blank.name ≡ B.name) × (blank.parts ≡ B.parts) }
    requires shares { vec_len parts ≤ blank.parts }
    requires table { opened.table.words.shared.table_id ≡ B.table }
    requires start { start_of opening.now ≡ B.start }
    requires began { D.told disk ≡ B.began }
    requires faults { D.faults disk ≡ B.faults }
    requires opened { IsOpened L.law opening.now (vec_len parts) opened }
    requires few { vec_len parts ≤ SESSIONS }
    requires behind { LOG_START < opening.now.tail }
    requires low { opening.now.tail ≤ STOP + 4 }
    requires run_high { opening.now.run ≤ LAST_RUN }
    requires meets { L.law.meets (opened_view (start_of opening.now)).opening.rows }
    requires holds { IfSome (D.told disk) (IsHeld L.law (start_of opening.now) []) }
    requires lines { AreLines (map (λ p. p.items) parts.items) }
    ensures ran { IfOk result.1 (λ ran. RanBeside L.law opening.now B.began B.faults (map (λ p. p.items) parts.items) (D.told result.0) (D.faults result.0) ran.failed ran.sessions.items) }
    ensures back { IfErr result.1 (λ _. (D.told result.0 ≡ D.told disk) × (D.faults result.0 ≡ D.faults disk)) }
{
    let Opened {
        table,
        sessions,
        idle,
        flush,
    } = opened;
    let (flusher, apart, room) = match make_ready(alloc, parts) {
        Ok(ready) => ready,
        Err(lack) => {
            end_all(sessions);
            return (disk, Err(lack));
        }
    };
    let (book, mut met) = blank.open::<B>();
    let desk = Desk::<L, D, B>::with(flusher, disk, flush);
    let desk = Mutex::new(SharedDesk::new(desk, book));
    let halt = AtomicU64::new(0);
    let begun = AtomicU64::new(0);
    let done = work_beside(
        rt, alloc, opening, &table, &desk, gate, &halt, &begun, &mut met, sessions, room,
    );
    let desk = desk.into_inner().into_desk(&mut met);
    let (disk, ran) = end_sessions(opening, table, desk, done, idle, apart);
    (disk, Ok(ran))
}

/// Opens a table, runs a session for each of these parts of a script on a thread of its own where one can be made, and closes the table
/// behind them. The disk holds the log as far as the opening; behind that it has blocks that were decided, in order, as far as turns of the desk
/// wrote them. The disk comes back; `Err` where memory ran out before the first line: then nothing was done to it.
pub fn run_sessions<
    L: RowLaw + Send + Sync,
    D: Disk + Drop + Send,
    G: Gate + Sync,
    R: Threads + Wait + Sync,
>(
    rt: &R,
    alloc: Global,
    opening: &Opening,
    disk: D,
    gate: &G,
    parts: Vec<Vec<ScriptLine>>,
) -> (D, Result<Ran, AllocError>)
    requires law { SameLaw L.law sound_law }
    requires few { vec_len parts ≤ SESSIONS }
    requires none { opening.now.sessions ≡ 0 }
    requires behind { LOG_START < opening.now.tail }
    requires low { opening.now.tail ≤ STOP + 4 }
    requires run_high { opening.now.run ≤ LAST_RUN }
    requires first { opening.now.first ≤ OID_LIMIT }
    requires rows { vec_len opening.now.rows ≡ OID_LIMIT }
    requires meets { L.law.meets (rows_of opening.now.rows.items) }
    requires unreached { (oid : ℕ) → opening.now.first ≤ oid → L.law.reach (rows_of opening.now.rows.items) oid ≡ 0 }
    requires holds { IfSome (D.told disk) (IsHeld L.law (start_of opening.now) []) }
    requires lines { AreLines (map (λ p. p.items) parts.items) }
    ensures ran { IfOk result.1 (λ ran. RanBeside L.law opening.now (D.told disk) (D.faults disk) (map (λ p. p.items) parts.items) (D.told result.0) (D.faults result.0) ran.failed ran.sessions.items) }
    ensures back { IfErr result.1 (λ _. (D.told result.0 ≡ D.told disk) × (D.faults result.0 ≡ D.faults disk)) }
{
    L::respects_rows();
    match open::<L>(alloc, opening, parts.len() as Seat) {
        Ok(opened) => {
            let blank = Blank::new(parts.len() as u64);
            run_opened::<L, D, Brand, G, R>(rt, alloc, opening, opened, disk, gate, blank, parts)
        }
        Err(lack) => (disk, Err(lack)),
    }
}
