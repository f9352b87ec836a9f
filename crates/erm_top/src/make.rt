//! The command `make`.
ghost use Rattle.std.specs.Prelude.{◌≡◌, ◌≤◌, ℕ, List, Option, IfOk, IfSome, OnOk};
ghost use Rattle.std.specs.List.{All};
ghost use Rattle.erm_command_line.specs.declared.command.TheConstants.{MOST_SESSIONS, MOST_TRANSACTIONS};
ghost use Rattle.erm_disk_run.specs.Found.{IsKept};
ghost use Rattle.erm_disk_run.specs.Limits.{in_lists};
ghost use Rattle.erm_disk_run.specs.Runs.{AreInTables, CountsRun, EndsRun, LeavesUntold};
ghost use Rattle.erm_make.specs.Workload.{names_of};
ghost use Rattle.erm_outside.specs.Disk.{Step};
ghost use Rattle.erm_report.specs.Printable.{FitsTypes, IsInTables};
ghost use Rattle.erm_top.specs.Makes.{MakeEnds, MakeTextEnds, lines_of, workload_text};
ghost use Rattle.erm_top.specs.Stopped.{TellsCounted, TellsMaking};

use crate::Ended;
use crate::printing::{Answered, STARVED, Stop, print, put_report, put_told};
use crate::texts::{lines_text, not_opened, try_each_text};
use erm_disk_run::{OnDisk, RunStop, run_in_lists};
use erm_made::{counts_of, each_transaction_is_counted, made_lines};
use erm_make::{make, text_but_flushes, workloads_are_scripts};
use erm_model::Seat;
use erm_outside::{Disk, Sink};
use erm_recover::SoundTest;
use erm_report::{Line, NO_MEMORY, Text};
use std::alloc::{AllocError, Global};

/// Makes the workload of so many transactions and sessions, runs it on the disk, over the world in lists, and tells the counts of its report.
pub fn make_and_run<K: Sink, D: Disk>(
    alloc: Global,
    sink: &mut K,
    disk: D,
    count: u32,
    sessions: Seat,
) -> Ended<D>
    requires some { 1 ≤ count }
    requires most { count ≤ MOST_TRANSACTIONS }
    requires one { 1 ≤ sessions }
    requires few { sessions ≤ MOST_SESSIONS }
    requires kept { IfSome (D.told disk) IsKept }
    ensures { (left : Option (List ℕ)) (faults : ℕ) → MakeEnds count sessions result.status (record {
      left_before = left;
      left_after = left;
      source_before = faults;
      source_after = faults;
      written_before = K.written sink.old;
      written_after = K.written sink.new;
      sink_before = K.faults sink.old;
      sink_after = K.faults sink.new;
      told_before = D.told disk;
      told_after = D.told result.disk;
      disk_before = D.faults disk;
      disk_after = D.faults result.disk;
    }) }
{
    erm_ckpt::one_recovery::<SoundTest>();
    each_transaction_is_counted();
    let answered = made(alloc, disk, count, sessions);
    let status = put_told(sink, &answered.told);
    Ended {
        status,
        disk: answered.disk,
    }
}

/// Puts the text of the workload of so many transactions and sessions, without its flushes, and answers the status.
pub fn make_text<K: Sink>(alloc: Global, sink: &mut K, count: u32, sessions: Seat) -> u8
    requires some { 1 ≤ count }
    requires most { count ≤ MOST_TRANSACTIONS }
    requires one { 1 ≤ sessions }
    requires few { sessions ≤ MOST_SESSIONS }
    ensures { (left : Option (List ℕ)) (faults : ℕ) (told : Option (List Step)) (failed : ℕ) → MakeTextEnds count sessions result (record {
      left_before = left;
      left_after = left;
      source_before = faults;
      source_after = faults;
      written_before = K.written sink.old;
      written_after = K.written sink.new;
      sink_before = K.faults sink.old;
      sink_after = K.faults sink.new;
      told_before = told;
      told_after = told;
      disk_before = failed;
      disk_after = failed;
    }) }
{
    match workload_text(alloc, count, sessions) {
        Ok(text) => put_report(sink, &text),
        Err(_) => {
            print(sink, NO_MEMORY);
            STARVED
        }
    }
}

// The text of the workload of so many transactions and sessions, without its flushes.
fn workload_text(alloc: Global, count: u32, sessions: Seat) -> Result<Vec<u8>, AllocError>
    requires some { 1 ≤ count }
    requires most { count ≤ MOST_TRANSACTIONS }
    requires one { 1 ≤ sessions }
    requires few { sessions ≤ MOST_SESSIONS }
    ensures { IfOk result (λ text. text.items ≡ workload_text count sessions) }
{
    let script = make(alloc, count, sessions)?;
    text_but_flushes(alloc, &script)
}

// Makes the workload of so many transactions and sessions, runs it on the disk, and makes the text that tells the counts. In lists no line is
// answered that cells are full.
fn made<D: Disk>(alloc: Global, disk: D, count: u32, sessions: Seat) -> Answered<D>
    requires some { 1 ≤ count }
    requires most { count ≤ MOST_TRANSACTIONS }
    requires one { 1 ≤ sessions }
    requires few { sessions ≤ MOST_SESSIONS }
    requires kept { IfSome (D.told disk) IsKept }
    ensures { TellsMaking count sessions result.told (D.told disk) (D.told result.disk) (D.faults disk) (D.faults result.disk) }
{
    workloads_are_scripts();
    match make(alloc, count, sessions) {
        Ok(script) => {
            let OnDisk { disk, ended } = run_in_lists(alloc, disk, &script.names, &script.lines);
            Answered {
                disk,
                told: made_text(alloc, count, sessions, ended),
            }
        }
        Err(_) => Answered {
            disk,
            told: Err(Stop::Memory),
        },
    }
}

// What is to be told of the workload's run: the text of the counts, if it was run to its end.
fn made_text(
    alloc: Global,
    count: u32,
    sessions: Seat,
    ended: Result<Vec<Line>, RunStop>,
) -> Result<Text, Stop>
    requires { AreInTables ended }
    ensures { (before after : Option (List Step)) (faults now : ℕ) → EndsRun in_lists ended before after (names_of count sessions) (lines_of count sessions)
        → LeavesUntold in_lists ended before after (names_of count sessions) (lines_of count sessions) → CountsRun ended faults now → TellsMaking count sessions result before after faults now }
{
    match ended {
        Ok(lines) => Ok(counts_text(alloc, count, sessions, &lines)?),
        Err(RunStop::Unopened(stop)) => Err(not_opened(alloc, stop)),
        Err(RunStop::DiskFault(lines)) => {
            try_each_text(alloc, &lines)?;
            Err(Stop::DiskFault)
        }
        Err(RunStop::Memory) => Err(Stop::Memory),
    }
}

// The text of the counts of a report's lines.
fn counts_text(
    alloc: Global,
    count: u32,
    sessions: Seat,
    lines: &[Line],
) -> Result<Text, AllocError>
    ensures text { IfOk result (λ text. TellsCounted count sessions lines.now text) }
    ensures fits { OnOk result (All IsInTables lines.now → All FitsTypes lines.now) }
{
    try_each_text(alloc, lines)?;
    let made = counts_of(lines);
    let told = made_lines(alloc, count, sessions, &made)?;
    lines_text(alloc, &told)
}
