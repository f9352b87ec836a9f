//! The program that tells the blocks of the log in the working folder's disk, and what lies behind its end. It writes nothing there.
#![tactic(auto)]

use erm_log::put_log;
use erm_outside_real::{FolderDisk, Patient, WriterSink};
use std::io;
use std::process::ExitCode;

fn main(rt: HostRuntime) -> ExitCode {
    let mut disk = FolderDisk::shared(&rt);
    let mut sink = WriterSink::new(Patient::new(io::writer(&rt), &rt));
    ExitCode::from(put_log(rt.alloc(), &mut disk, &mut sink))
}
