//! What is put to the sink: a report, or what stands in its place.
ghost use Rattle.std.specs.Prelude.{◌≡◌};
ghost use Rattle.erm_top.specs.Told.{Prints, PutsReport, PutsTold, stop_status, stop_text};

use erm_outside::{Sink, put_all};
use erm_report::{DISK_FAULT, NO_BASE, NO_MEMORY, READ_FAULT, TOO_LONG, Text};
use std::alloc::AllocError;

/// The status where the report was put whole.
const REPORTED: u8 = 0;

/// The status where the words ask for no command.
pub const MISUSED: u8 = 2;

/// The status where the script is not in the grammar.
const BAD_SCRIPT: u8 = 3;

/// The status where the source failed.
const SOURCE_FAILED: u8 = 4;

/// The status where the sink failed.
const SINK_FAILED: u8 = 5;

/// The status where the disk failed.
const DISK_FAILED: u8 = 6;

/// The status where there is no place to start from.
const WITHOUT_BASE: u8 = 7;

/// The status where memory ran out.
pub const STARVED: u8 = 8;

/// The status where the source has too many bytes.
const OVERLONG: u8 = 9;

/// The status where nothing comes behind what the disk holds.
const AT_END: u8 = 10;

/// Why there is no report, or none that is whole, and the text that is printed then, where it isn't always the same.
#[derive(Drop)]
pub enum Stop {
    /// The script is not in the grammar: its first bad line.
    BadLine(Text),
    /// The source failed.
    ReadFault,
    /// The disk failed before anything was run.
    DiskFault,
    /// The disk failed while a script was run: the report up to then.
    Cut(Text),
    /// There is no place to start from.
    NoBase,
    /// Memory ran out.
    Memory,
    /// The source has too many bytes.
    TooLong,
    /// No run, or no place of the log, comes behind what the disk holds: the line that says so.
    AtEnd(Text),
}

impl From<AllocError> for Stop {
    ghost use Rattle.std.specs.Prelude.{◌≡◌};
    ghost use Rattle.erm_top.specs.declared.printing.Stop.TheVariants.{Memory};

    ghost from_gives = { λ _ stop. stop ≡ Memory };

    fn from(_: AllocError) -> Stop {
        Stop::Memory
    }
}

/// What a command has to tell, with the disk that it was handed.
#[derive(Drop)]
pub struct Answered<D> {
    /// The disk.
    pub disk: D,
    /// The text of the report, or why there is none.
    pub told: Result<Text, Stop>,
}

/// Puts what a command has to tell, and answers the status.
pub fn put_told<K: Sink>(sink: &mut K, told: &Result<Text, Stop>) -> u8
    ensures { PutsTold told.now result (K.written sink.old) (K.written sink.new) (K.faults sink.old) (K.faults sink.new) }
{
    match told {
        Ok(text) => put_report(sink, text.as_slice()),
        Err(stop) => print_stop(sink, stop),
    }
}

/// Puts a report, and answers the status.
pub fn put_report<K: Sink>(sink: &mut K, text: &[u8]) -> u8
    ensures { PutsReport text.now result (K.written sink.old) (K.written sink.new) (K.faults sink.old) (K.faults sink.new) }
{
    match put_all(sink, text) {
        Ok(()) => REPORTED,
        Err(_) => SINK_FAILED,
    }
}

// Prints what stands in place of a report, and answers the status.
fn print_stop<K: Sink>(sink: &mut K, stop: &Stop) -> u8
    ensures status { result ≡ stop_status stop.now }
    ensures printed { Prints (stop_text stop.now) (K.written sink.old) (K.written sink.new) (K.faults sink.old) (K.faults sink.new) }
{
    print(sink, stop_text(stop));
    stop_status(stop)
}

// The text that is printed for a stop.
fn stop_text(stop: &Stop) -> &[u8]
    ensures { result.now ≡ stop_text stop.now }
{
    match stop {
        Stop::BadLine(text) | Stop::Cut(text) | Stop::AtEnd(text) => text.as_slice(),
        Stop::ReadFault => READ_FAULT,
        Stop::DiskFault => DISK_FAULT,
        Stop::NoBase => NO_BASE,
        Stop::Memory => NO_MEMORY,
        Stop::TooLong => TOO_LONG,
    }
}

// The status of a stop.
fn stop_status(stop: &Stop) -> u8
    ensures { result ≡ stop_status stop.now }
{
    match stop {
        Stop::BadLine(_) => BAD_SCRIPT,
        Stop::ReadFault => SOURCE_FAILED,
        Stop::DiskFault | Stop::Cut(_) => DISK_FAILED,
        Stop::NoBase => WITHOUT_BASE,
        Stop::Memory => STARVED,
        Stop::TooLong => OVERLONG,
        Stop::AtEnd(_) => AT_END,
    }
}

/// Puts a text, or as much of it as the sink takes before it fails.
pub fn print<K: Sink>(sink: &mut K, text: &[u8])
    ensures { Prints text.now (K.written sink.old) (K.written sink.new) (K.faults sink.old) (K.faults sink.new) }
{
    let _ = put_all(sink, text);
}
