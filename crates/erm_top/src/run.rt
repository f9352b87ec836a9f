//! The command `run`.
ghost use Rattle.std.specs.Prelude.{◌≡◌, ℕ, ◌+◌, ◌≤◌, List, length, IfSome};
ghost use Rattle.erm_disk_run.specs.Found.{IsKept};
ghost use Rattle.erm_script.specs.Script.{IsScript};
ghost use Rattle.erm_top.specs.Running.{running_in_turn};
ghost use Rattle.erm_top.specs.Runs.{RunEnds};
ghost use Rattle.erm_top.specs.Scripts.{run_grammar};
ghost use Rattle.erm_top.specs.Stopped.{TellsRan};
ghost use Rattle.erm_top.specs.declared.reading.TheConstants.{SCRIPT_BYTES};

use crate::Ended;
use crate::printing::{Answered, put_told};
use crate::script::{read_script, script_text};
use erm_disk_run::{OnDisk, run_on_disk};
use erm_model::SESSIONS;
use erm_outside::{Disk, Sink, Source};
use erm_recover::SoundTest;
use erm_script::{Grammar, Script};
use std::alloc::Global;

/// Which scripts the command takes: those of up to 48 sessions, with the lines of an index, of a log and of checkpoints.
pub fn run_grammar() -> Grammar
    ensures { result ≡ run_grammar }
{
    Grammar {
        sessions: SESSIONS,
        index: true,
        log: true,
        checkpoints: true,
        threads: false,
    }
}

/// Reads a script from the source to its end, runs it on the disk, and puts the report.
pub fn run<S: Source, K: Sink, D: Disk>(
    alloc: Global,
    source: &mut S,
    sink: &mut K,
    disk: D,
) -> Ended<D>
    requires kept { IfSome (D.told disk) IsKept }
    ensures { RunEnds result.status (record {
      left_before = S.left source.old;
      left_after = S.left source.new;
      source_before = S.faults source.old;
      source_after = S.faults source.new;
      written_before = K.written sink.old;
      written_after = K.written sink.new;
      sink_before = K.faults sink.old;
      sink_after = K.faults sink.new;
      told_before = D.told disk;
      told_after = D.told result.disk;
      disk_before = D.faults disk;
      disk_after = D.faults result.disk;
    }) }
{
    erm_ckpt::one_recovery::<SoundTest>();
    match read_script(alloc, source, run_grammar()) {
        Ok(script) => {
            let answered = run_script(alloc, disk, &script);
            let status = put_told(sink, &answered.told);
            Ended {
                status,
                disk: answered.disk,
            }
        }
        Err(stop) => {
            let status = put_told(sink, &Err(stop));
            Ended { status, disk }
        }
    }
}

// Runs a script on a disk, and makes the text of its report.
fn run_script<D: Disk>(alloc: Global, disk: D, script: &Script) -> Answered<D>
    requires spelled { (bytes : List ℕ) × IsScript run_grammar bytes script.now.names.items script.now.lines.items }
    requires short { length script.now.lines.items ≤ SCRIPT_BYTES + 1 }
    requires kept { IfSome (D.told disk) IsKept }
    ensures { TellsRan running_in_turn result.told script.now.names.items script.now.lines.items (D.told disk) (D.told result.disk) (D.faults disk) (D.faults result.disk) }
{
    let OnDisk { disk, ended } = run_on_disk(alloc, disk, &script.names, &script.lines);
    let told = script_text(alloc, ended);
    Answered { disk, told }
}
