//! The whole program over a runtime and a disk: the top call over standard input and standard output.
#![tactic(auto)]

ghost use Rattle.std.specs.Prelude.{IfSome};
ghost use Rattle.std.specs.Process.{exit_status};
ghost use Rattle.erm_disk_run.specs.Found.{IsKept};
ghost use Rattle.erm_top.specs.Outcomes.{Ends};
ghost use Rattle.erm_program.specs.Streams.{EndsOnStreams};

use erm_command_line::{Command, command_of};
use erm_outside::{Disk, OpenGate, Sink, Source};
use erm_outside_real::{Patient, ReaderSource, WriterSink};
use erm_top::ermia;
use std::alloc::Global;
use std::process::ExitCode;
use std::rt::Env;
use std::sync::Wait;
use std::thread::Threads;
use std::time::Clock;
use std::{env, io};

/// Runs the program on a disk to its end, and answers the exit status. Standard input and output are waited for where they
/// aren't ready.
pub fn program<
    R: AllocGlobal + Input + Print + Clock + Threads + Wait + Sync,
    D: Disk + Drop + Send,
>(rt: &R, words: &[String], disk: D) -> ExitCode
    requires kept { IfSome (D.told disk) IsKept }
    ensures { EndsOnStreams words.now (exit_status result) (D.told disk) (D.faults disk) }
{
    let mut source = ReaderSource::new(Patient::new(rt.reader(), rt));
    let mut sink = WriterSink::new(Patient::new(io::writer(rt), rt));
    let (status, _) = exit_with(rt, rt.alloc(), words, &mut source, &mut sink, disk);
    status
}

/// Runs the program on what it is given to its end, and answers the exit status and the disk. Where sessions run on threads, its clause
/// is of what it returns, if it returns.
pub fn exit_with<R: Threads + Wait + Sync, S: Source, K: Sink, D: Disk + Drop + Send>(
    rt: &R,
    alloc: Global,
    words: &[String],
    source: &mut S,
    sink: &mut K,
    disk: D,
) -> (ExitCode, D)
    requires kept { IfSome (D.told disk) IsKept }
    ensures { Ends words.now (exit_status result.0) (record {
      left_before = S.left source.old;
      left_after = S.left source.new;
      source_before = S.faults source.old;
      source_after = S.faults source.new;
      written_before = K.written sink.old;
      written_after = K.written sink.new;
      sink_before = K.faults sink.old;
      sink_after = K.faults sink.new;
      told_before = D.told disk;
      told_after = D.told result.1;
      disk_before = D.faults disk;
      disk_after = D.faults result.1;
    }) }
{
    let ended = ermia(rt, alloc, words, source, sink, disk, &OpenGate);
    (ExitCode::from(ended.status), ended.disk)
}

/// The words of the command line. Where they can't be read there are none, which ask for no command.
pub fn words<R: AllocGlobal + Env>(rt: &R) -> Vec<String> {
    match env::args(rt) {
        Ok(args) => args.collect(rt.alloc()).unwrap_or(Vec::new(rt.alloc())),
        Err(_) => Vec::new(rt.alloc()),
    }
}

/// Whether the words ask for a command that writes nothing to the disk. Where memory runs out it is taken for another one.
pub fn only_reads(alloc: Global, words: &[String]) -> bool {
    matches!(
        command_of(alloc, words),
        Ok(Some(
            Command::Recover | Command::Audit | Command::Ship | Command::Follow | Command::Replica
        ))
    )
}
