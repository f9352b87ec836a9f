//! A script at once, run on a disk.
ghost use Rattle.std.specs.Prelude.{IfSome, List, Option, ℕ};
ghost use Rattle.erm_ckpt.specs.Recovered.{State};
ghost use Rattle.erm_disk_run.specs.Found.{IsKept};
ghost use Rattle.erm_disk_run.specs.Opened.{WasLogOpened};
ghost use Rattle.erm_disk_run.specs.Runs.{AreInTables};
ghost use Rattle.erm_disk_at_once.specs.Runs.{CountsAtOnce, EndsAtOnce, IsScriptAtOnce, LeavesUntoldAtOnce};
ghost use Rattle.erm_model.specs.Rows.{rows_of};
ghost use Rattle.erm_outside.specs.Disk.{Step};
ghost use Rattle.erm_run_at_once.specs.Room.{MayRun};
ghost use Rattle.erm_start.specs.Recovered.{IsFirstObject};

use crate::laws::ends_have_laws;
use crate::report::report_ran;
use crate::room::{Room, make_room};
use erm_disk_run::{OnDisk, OpenedLog, RunStop, open_log_on_disk};
use erm_model::{Name, Oid};
use erm_node::SoundRows;
use erm_outside::{Disk, Gate};
use erm_rule::Opening;
use erm_run_beside::run_sessions;
use erm_script::ScriptLine;
use erm_start::first_object;
use std::alloc::{AllocError, Global};
use std::sync::Wait;
use std::thread::Threads;

// Runs the sessions of a script in the room made for them, on a disk whose log was just opened.
fn run_in_room<D: Disk + Drop + Send, G: Gate + Sync, R: Threads + Wait + Sync>(
    rt: &R,
    alloc: Global,
    opened: OpenedLog,
    disk: D,
    gate: &G,
    room: Room,
    first: Oid,
    script: &[ScriptLine],
) -> OnDisk<D, RunStop>
    requires first { IsFirstObject (rows_of opened.rows.items) first }
    requires may { (before : Option (List Step)) × (state : State) × (names : List (List ℕ)) × MayRun before (D.told disk) state opened names script.now room }
    ensures ended { (before : Option (List Step)) (state : State) (names : List (List ℕ)) → MayRun before (D.told disk) state opened names script.now room
        → EndsAtOnce result.ended before (D.told result.disk) names script.now }
    ensures untold { (before : Option (List Step)) (state : State) (names : List (List ℕ)) → MayRun before (D.told disk) state opened names script.now room
        → LeavesUntoldAtOnce result.ended before (D.told result.disk) names script.now }
    ensures tables { AreInTables result.ended }
    ensures counts { CountsAtOnce result.ended (D.faults disk) (D.faults result.disk) }
{
    ends_have_laws();
    let OpenedLog {
        rows,
        tail,
        start,
        slots: _,
    } = opened;
    let Room {
        parts,
        names,
        lines,
    } = room;
    let opening = Opening {
        sessions: 0,
        tail,
        run: start.run,
        first,
        rows,
    };
    let (disk, ran) = run_sessions::<SoundRows, D, G, R>(rt, alloc, &opening, disk, gate, parts);
    let ended = match ran {
        Ok(ran) => report_ran(alloc, start, &names, lines, script, ran),
        Err(AllocError) => Err(RunStop::Memory),
    };
    OnDisk { disk, ended }
}

// Runs the sessions of a script on a disk whose log was just opened.
fn run_opened_log<D: Disk + Drop + Send, G: Gate + Sync, R: Threads + Wait + Sync>(
    rt: &R,
    alloc: Global,
    opened: OpenedLog,
    disk: D,
    gate: &G,
    names: &[Name],
    script: &[ScriptLine],
) -> OnDisk<D, RunStop>
    requires opened { (before : Option (List Step)) × (state : State) × WasLogOpened before (D.told disk) state opened }
    requires script { IsScriptAtOnce names.now script.now }
    ensures ended { (before : Option (List Step)) (state : State) → WasLogOpened before (D.told disk) state opened
        → EndsAtOnce result.ended before (D.told result.disk) names.now script.now }
    ensures untold { (before : Option (List Step)) (state : State) → WasLogOpened before (D.told disk) state opened
        → LeavesUntoldAtOnce result.ended before (D.told result.disk) names.now script.now }
    ensures tables { AreInTables result.ended }
    ensures counts { CountsAtOnce result.ended (D.faults disk) (D.faults result.disk) }
{
    ends_have_laws();
    let first = first_object(&opened.rows);
    match make_room(alloc, names, script) {
        Ok(room) => run_in_room(rt, alloc, opened, disk, gate, room, first, script),
        Err(AllocError) => OnDisk {
            disk,
            ended: Err(RunStop::Memory),
        },
    }
}

/// Recovers a disk, opens its log for the next run, and runs the sessions of a script there at once, each on a thread of its own where one
/// can be made, over the word table. It gives the lines of the report, which is good and whose windows are tight, whatever the interleaving. A crash
/// at any moment leaves the commits below one stamp: all that a line acknowledged, once it has, and all at the end. Where the disk fails,
/// these are the lines of each session's first answers. Where no memory is left for a session, or for the report, there are such answers too, of which
/// no line tells: each is one to its line, with the replies of its transaction's snapshot, and a crash leaves the commits that they tell below one
/// stamp.
///
/// It waits for threads: its clauses are of what it returns, if it returns.
pub fn run_at_once_on_disk<D: Disk + Drop + Send, G: Gate + Sync, R: Threads + Wait + Sync>(
    rt: &R,
    alloc: Global,
    disk: D,
    gate: &G,
    names: &[Name],
    script: &[ScriptLine],
) -> OnDisk<D, RunStop>
    requires script { IsScriptAtOnce names.now script.now }
    requires kept { IfSome (D.told disk) IsKept }
    ensures ended { EndsAtOnce result.ended (D.told disk) (D.told result.disk) names.now script.now }
    ensures untold { LeavesUntoldAtOnce result.ended (D.told disk) (D.told result.disk) names.now script.now }
    ensures tables { AreInTables result.ended }
    ensures counts { CountsAtOnce result.ended (D.faults disk) (D.faults result.disk) }
{
    let mut disk = disk;
    match open_log_on_disk(alloc, &mut disk) {
        Ok(opened) => run_opened_log(rt, alloc, opened, disk, gate, names, script),
        Err(stop) => OnDisk {
            disk,
            ended: Err(RunStop::Unopened(stop)),
        },
    }
}
