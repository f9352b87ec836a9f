//! The program that tells of each refused line of a script which lines are the cause, from the script and its report behind it.
#![tactic(auto)]

use erm_explained::put_causes;
use erm_outside_real::{Patient, ReaderSource, WriterSink};
use std::io;
use std::process::ExitCode;

fn main(rt: HostRuntime) -> ExitCode {
    let mut source = ReaderSource::new(Patient::new(rt.reader(), &rt));
    let mut sink = WriterSink::new(Patient::new(io::writer(&rt), &rt));
    ExitCode::from(put_causes(rt.alloc(), &mut source, &mut sink))
}
