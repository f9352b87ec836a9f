//! The top call.
ghost use Rattle.std.specs.Prelude.{IfSome};
ghost use Rattle.erm_disk_run.specs.Found.{IsKept};
ghost use Rattle.erm_top.specs.Commands.{IsSized};
ghost use Rattle.erm_top.specs.Outcomes.{CommandEnds, Ends};

use crate::checkpoint::checkpoint;
use crate::commands::USAGE;
use crate::inspect::{audit, recover};
use crate::make::{make_and_run, make_text};
use crate::printing::{MISUSED, STARVED, print};
use crate::run::run;
use crate::stream::{follow_stream, replicate_stream, ship_log};
use crate::threads::threads;
use erm_command_line::{Command, command_of};
use erm_follow_run::starving_is_an_end;
use erm_made::each_transaction_is_counted;
use erm_outside::{Disk, Gate, Sink, Source};
use erm_recover::SoundTest;
use erm_replica_run::starved_replicas_end;
use erm_report::NO_MEMORY;
use std::alloc::Global;
use std::sync::Wait;
use std::thread::Threads;

/// What the top call hands back.
#[derive(Drop)]
pub struct Ended<D> {
    /// The exit status.
    pub status: u8,
    /// The disk that was handed in.
    pub disk: D,
}

/// The whole program: what the words of the command line ask for, over a source of bytes, a sink and a disk.
///
/// `words` are the program's name and a command; `--` may stand behind them. The status is
///
/// - 0 where the command ended and its report was put whole;
/// - 2 where the words ask for no command, those that ask for help too; the usage line was printed;
/// - 3 where the script is not in the grammar; the first bad line was printed, with its first kind of fault;
/// - 4 where the source failed;
/// - 5 where the sink failed while the report, the stream or the lines were put;
/// - 6 where the disk failed; the report or the stream up to then was printed;
/// - 7 where there are bytes on the disk, but no place to start from;
/// - 8 where memory ran out;
/// - 9 where the source has more than 16,777,216 bytes;
/// - 10 where no run, or no place of the log, comes behind what the disk holds;
/// - 11 where what stands in the stream is no item, whatever follows;
/// - 12 where a commit of the stream breaks a safe stamp.
///
/// Each clause on content stands where source, sink and disk tell their content. A disk that tells it must be one that may be opened: nothing is
/// pending on it but of what an opening waits for, and behind what it recovers to there is no block of a later run. The disk that a whole run
/// leaves is such a one, and so is each image that a crash leaves.
///
/// The command `threads` runs the sessions of its script on threads and waits for them: there each clause is of what is returned, if it returns. The
/// threads tell the gate where they are, which may hold them; no clause says when.
pub fn ermia<R: Threads + Wait + Sync, S: Source, K: Sink, D: Disk + Drop + Send, G: Gate + Sync>(
    rt: &R,
    alloc: Global,
    words: &[String],
    source: &mut S,
    sink: &mut K,
    disk: D,
    gate: &G,
) -> Ended<D>
    requires kept { IfSome (D.told disk) IsKept }
    ensures { Ends words.now result.status (record {
      left_before = S.left source.old;
      left_after = S.left source.new;
      source_before = S.faults source.old;
      source_after = S.faults source.new;
      written_before = K.written sink.old;
      written_after = K.written sink.new;
      sink_before = K.faults sink.old;
      sink_after = K.faults sink.new;
      told_before = D.told disk;
      told_after = D.told result.disk;
      disk_before = D.faults disk;
      disk_after = D.faults result.disk;
    }) }
{
    erm_ckpt::one_recovery::<SoundTest>();
    each_transaction_is_counted();
    starving_is_an_end();
    starved_replicas_end();
    match command_of(alloc, words) {
        Ok(Some(command)) => run_command(rt, alloc, command, source, sink, disk, gate),
        Ok(None) => {
            print(sink, USAGE);
            Ended {
                status: MISUSED,
                disk,
            }
        }
        Err(_) => {
            print(sink, NO_MEMORY);
            Ended {
                status: STARVED,
                disk,
            }
        }
    }
}

// Runs a command. Only `threads` waits.
fn run_command<R: Threads + Wait + Sync, S: Source, K: Sink, D: Disk + Drop + Send, G: Gate + Sync>(
    rt: &R,
    alloc: Global,
    command: Command,
    source: &mut S,
    sink: &mut K,
    disk: D,
    gate: &G,
) -> Ended<D>
    requires sized { IsSized command }
    requires kept { IfSome (D.told disk) IsKept }
    ensures { CommandEnds command result.status (record {
      left_before = S.left source.old;
      left_after = S.left source.new;
      source_before = S.faults source.old;
      source_after = S.faults source.new;
      written_before = K.written sink.old;
      written_after = K.written sink.new;
      sink_before = K.faults sink.old;
      sink_after = K.faults sink.new;
      told_before = D.told disk;
      told_after = D.told result.disk;
      disk_before = D.faults disk;
      disk_after = D.faults result.disk;
    }) }
{
    match command {
        Command::Run => run(alloc, source, sink, disk),
        Command::Threads => threads(rt, alloc, source, sink, disk, gate),
        Command::Recover => recover(alloc, sink, disk),
        Command::Audit => audit(alloc, sink, disk),
        Command::Checkpoint => checkpoint(alloc, sink, disk),
        Command::Ship => ship_log(alloc, sink, disk),
        Command::Follow => Ended {
            status: follow_stream(alloc, source, sink),
            disk,
        },
        Command::Replica => Ended {
            status: replicate_stream(alloc, source, sink),
            disk,
        },
        Command::Make {
            count,
            sessions,
            text: true,
        } => Ended {
            status: make_text(alloc, sink, count, sessions),
            disk,
        },
        Command::Make {
            count,
            sessions,
            text: false,
        } => make_and_run(alloc, sink, disk, count, sessions),
    }
}
