//! The command `threads`.
ghost use Rattle.std.specs.Prelude.{◌≡◌, ℕ, ◌+◌, ◌≤◌, List, length, IfSome};
ghost use Rattle.erm_disk_run.specs.Found.{IsKept};
ghost use Rattle.erm_script.specs.Script.{IsScript};
ghost use Rattle.erm_top.specs.Running.{running_at_once};
ghost use Rattle.erm_top.specs.Runs.{ThreadsEnds};
ghost use Rattle.erm_top.specs.Scripts.{threads_grammar};
ghost use Rattle.erm_top.specs.Stopped.{TellsRan};
ghost use Rattle.erm_top.specs.declared.reading.TheConstants.{SCRIPT_BYTES};

use crate::Ended;
use crate::printing::{Answered, put_told};
use crate::run::run_grammar;
use crate::script::{read_script, script_text};
use erm_disk_run::OnDisk;
use erm_outside::{Disk, Gate, Sink, Source};
use erm_recover::SoundTest;
use erm_run_at_once::run_at_once_on_disk;
use erm_script::{Grammar, Script};
use std::alloc::Global;
use std::sync::Wait;
use std::thread::Threads;

// Which scripts the command takes: those of `run` but for the lines that name no session, since each session has a thread of its own.
fn threads_grammar() -> Grammar
    ensures { result ≡ threads_grammar }
{
    Grammar {
        threads: true,
        ..run_grammar()
    }
}

/// Reads a script from the source to its end, runs its sessions at once on the disk, each on a thread of its own where one can be made, and puts
/// the report.
///
/// It waits for threads: its clause is of what it returns, if it returns.
pub fn threads<R: Threads + Wait + Sync, S: Source, K: Sink, D: Disk + Drop + Send, G: Gate + Sync>(
    rt: &R,
    alloc: Global,
    source: &mut S,
    sink: &mut K,
    disk: D,
    gate: &G,
) -> Ended<D>
    requires kept { IfSome (D.told disk) IsKept }
    ensures { ThreadsEnds result.status (record {
      left_before = S.left source.old;
      left_after = S.left source.new;
      source_before = S.faults source.old;
      source_after = S.faults source.new;
      written_before = K.written sink.old;
      written_after = K.written sink.new;
      sink_before = K.faults sink.old;
      sink_after = K.faults sink.new;
      told_before = D.told disk;
      told_after = D.told result.disk;
      disk_before = D.faults disk;
      disk_after = D.faults result.disk;
    }) }
{
    erm_ckpt::one_recovery::<SoundTest>();
    match read_script(alloc, source, threads_grammar()) {
        Ok(script) => {
            let answered = run_at_once(rt, alloc, disk, gate, &script);
            let status = put_told(sink, &answered.told);
            Ended {
                status,
                disk: answered.disk,
            }
        }
        Err(stop) => {
            let status = put_told(sink, &Err(stop));
            Ended { status, disk }
        }
    }
}

// Runs the sessions of a script at once on a disk, and makes the text of its report.
fn run_at_once<R: Threads + Wait + Sync, D: Disk + Drop + Send, G: Gate + Sync>(
    rt: &R,
    alloc: Global,
    disk: D,
    gate: &G,
    script: &Script,
) -> Answered<D>
    requires spelled { (bytes : List ℕ) × IsScript threads_grammar bytes script.now.names.items script.now.lines.items }
    requires short { length script.now.lines.items ≤ SCRIPT_BYTES + 1 }
    requires kept { IfSome (D.told disk) IsKept }
    ensures { TellsRan running_at_once result.told script.now.names.items script.now.lines.items (D.told disk) (D.told result.disk) (D.faults disk) (D.faults result.disk) }
{
    let OnDisk { disk, ended } = run_at_once_on_disk(
        rt,
        alloc,
        disk,
        gate,
        &script.names,
        &script.lines,
    );
    let told = script_text(alloc, ended);
    Answered { disk, told }
}
