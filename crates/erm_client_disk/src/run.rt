//! Programs run on a disk.
ghost use Rattle.std.specs.Prelude.{◌≡◌, ◌≤◌, IfErr, IfOk, IfSome, List, Option, vec_len};
ghost use Rattle.erm_ckpt.specs.Recovered.{State};
ghost use Rattle.erm_client_disk.specs.Ran.{CountsNone, CountsRun, NoneRan, WereRun, ended_of};
ghost use Rattle.erm_disk_run.specs.Found.{IsFound, IsKept};
ghost use Rattle.erm_disk_run.specs.Opened.{WasLogOpened};
ghost use Rattle.erm_model.specs.declared.limits.TheConstants.{SESSIONS};
ghost use Rattle.erm_outside.specs.Disk.{Step};

use crate::ends::programs_have_laws;
use erm_client_beside::{ProgramsRan, run_programs};
use erm_client_threads::Program;
use erm_disk_run::{DiskStop, OpenedLog, open_log_on_disk};
use erm_node::SoundRows;
use erm_outside::{Disk, Gate};
use erm_rule::Opening;
use erm_start::first_object;
use std::alloc::Global;
use std::sync::Wait;
use std::thread::Threads;

/// Why no program ran on a disk. The programs come back.
#[derive(Drop)]
pub enum ProgramsStop<P> {
    /// The disk's log wasn't opened.
    Unopened(DiskStop, Vec<P>),
    /// Memory ran out before the first of them ran.
    Memory(Vec<P>),
}

/// What ran on a disk: the disk that was handed in, and the programs.
#[derive(Drop)]
pub struct ProgramsOnDisk<D, P> {
    /// The disk that was handed in.
    pub disk: D,
    /// The programs behind their runs, or why none ran.
    pub ended: Result<ProgramsRan<P>, ProgramsStop<P>>,
}

// How a run on a disk ends whose log was opened.
fn ended<P>(ran: Result<ProgramsRan<P>, Vec<P>>) -> Result<ProgramsRan<P>, ProgramsStop<P>>
    ensures { result ≡ ended_of ran }
{
    match ran {
        Ok(ran) => Ok(ran),
        Err(programs) => Err(ProgramsStop::Memory(programs)),
    }
}

// Runs programs on a disk whose log was just opened.
fn run_opened_log<
    D: Disk + Drop + Send,
    G: Gate + Sync,
    R: Threads + Wait + Sync,
    P: Program + Send + Drop,
>(
    rt: &R,
    alloc: Global,
    opened: OpenedLog,
    disk: D,
    gate: &G,
    programs: Vec<P>,
) -> ProgramsOnDisk<D, P>
    requires opened { (before : Option (List Step)) × (state : State) × WasLogOpened before (D.told disk) state opened }
    requires few { vec_len programs ≤ SESSIONS }
    ensures ran { IfOk result.ended (λ ran. (before : Option (List Step)) (state : State) → WasLogOpened before (D.told disk) state opened
        → WereRun P.promises before (D.told result.disk) state ran.failed programs.items ran.programs.items) }
    ensures none { IfErr result.ended (λ stop. (before : Option (List Step)) (state : State) → WasLogOpened before (D.told disk) state opened
        → NoneRan stop programs.items before (D.told result.disk)) }
    ensures counts { IfOk result.ended (λ ran. CountsRun ran.failed (D.faults disk) (D.faults result.disk)) }
    ensures counts_none { IfErr result.ended (λ stop. CountsNone stop (D.faults disk) (D.faults result.disk)) }
{
    programs_have_laws();
    let first = first_object(&opened.rows);
    let OpenedLog {
        rows,
        tail,
        start,
        slots: _,
    } = opened;
    let opening = Opening {
        sessions: 0,
        tail,
        run: start.run,
        first,
        rows,
    };
    let (disk, ran) = run_programs::<SoundRows, D, G, R, P>(
        rt, alloc, &opening, disk, gate, programs,
    );
    let ended = ended(ran);
    ProgramsOnDisk { disk, ended }
}

/// Recovers a disk, opens its log for the next run, and runs each program with the client of a session of its own, on a thread of its own where one can be
/// made, over the word table; then closes the sessions and the table. The programs come back, each with the transcript of what was asked of its client, and so
/// does the disk.
///
/// Each program keeps its promise. A crash at any moment leaves the commits below one stamp that the transcripts tell: all that a client was told to be on
/// the disk, once it has been told, and all at the end, where the disk hasn't failed and memory ran out for none within a line. That isn't told where they have
/// 2 ^ 32 lines or more in all. The disk's slots, and the segments of the log below that of the place found, are as they were.
///
/// Only where the disk fails may clients have been told to stop. Where memory runs out for a client within a line that client is asked no more, and what it
/// had in progress is given up: of what it did only this line isn't known. What it was told before stays promised, and the others go on.
///
/// It waits for the programs: its clauses are of what it returns, if it returns.
///
/// ```text
/// let ProgramsOnDisk { disk, ended } = run_programs_on_disk(rt, alloc, disk, &gate, programs);
/// let ran = match ended {
///     Ok(ran) => ran,
///     Err(ProgramsStop::Unopened(stop, programs)) => return Err(stopped(stop, programs)),
///     Err(ProgramsStop::Memory(programs)) => return Err(lacked(programs)),
/// };
/// for run in ran.programs.as_slice() {
///     count(&run.program, &run.transcript);
/// }
/// ```
pub fn run_programs_on_disk<
    D: Disk + Drop + Send,
    G: Gate + Sync,
    R: Threads + Wait + Sync,
    P: Program + Send + Drop,
>(rt: &R, alloc: Global, disk: D, gate: &G, programs: Vec<P>) -> ProgramsOnDisk<D, P>
    requires few { vec_len programs ≤ SESSIONS }
    requires kept { IfSome (D.told disk) IsKept }
    ensures ran { IfOk result.ended (λ ran. (state : State) × IsFound (D.told disk) state
        × WereRun P.promises (D.told disk) (D.told result.disk) state ran.failed programs.items ran.programs.items) }
    ensures none { IfErr result.ended (λ stop. NoneRan stop programs.items (D.told disk) (D.told result.disk)) }
    ensures counts { IfOk result.ended (λ ran. CountsRun ran.failed (D.faults disk) (D.faults result.disk)) }
    ensures counts_none { IfErr result.ended (λ stop. CountsNone stop (D.faults disk) (D.faults result.disk)) }
{
    let mut disk = disk;
    match open_log_on_disk(alloc, &mut disk) {
        Ok(opened) => run_opened_log(rt, alloc, opened, disk, gate, programs),
        Err(stop) => ProgramsOnDisk {
            disk,
            ended: Err(ProgramsStop::Unopened(stop, programs)),
        },
    }
}
