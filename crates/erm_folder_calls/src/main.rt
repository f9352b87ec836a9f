//! Prints what calls of the program ask of the system, call by call, on a folder whose log goes on near the end of its first
//! segment: a run that flushes over both, a checkpoint, and one that removes the first. Calls that only read aren't printed,
//! but for those that find nothing where something is waited for.
#![tactic(auto)]

mod listing;

use anyhow::Result;
use erm_outside::File;
use erm_outside_mem::{MemSink, MemSource, OpenGate};
use erm_outside_real::{Call, FolderDisk, Lock};
use erm_top::ermia;
use listing::Listing;
use std::alloc::{AllocError, Global};
use std::sync::Wait;
use std::thread::Threads;

/// The bytes of a slot at stamp 65,530 of run 1, over no rows.
const SLOT: &str =
    "0100000000000000faff00000000000001000000000000000000000000000000000000000000000019749c80f31bf102";

/// The words of each call, and what it reads.
const CALLS: [(&str, &str); 4] = [
    (
        "erm run",
        "a begin\na put 0 10 aa\na commit\nflush\na begin\na put 0 20 bb\na commit\n",
    ),
    ("erm checkpoint", ""),
    ("erm checkpoint", ""),
    ("erm recover", ""),
];

/// The bytes that source and sink move a call.
const PER_CALL: usize = 4096;

fn main(rt: HostRuntime) -> Result<()> {
    let mut folder = Listing::new(rt.alloc());
    folder.add(File::Slot0, &hex::decode(rt.alloc(), SLOT)?)?;
    for (words, script) in CALLS {
        let (status, files) = call(&rt, rt.alloc(), words, script, folder)?;
        folder = files;
        println!(rt; "{words}: status {status}")?;
        for call in folder.take_calls() {
            println!(rt; "    {}", told(rt.alloc(), call)?)?;
        }
    }
    Ok(())
}

// Calls the program on a folder. It answers the status and the folder.
fn call<R: Threads + Wait + Sync>(
    rt: &R,
    alloc: Global,
    line: &str,
    script: &str,
    folder: Listing,
) -> Result<(u8, Listing), AllocError> {
    let mut words = Vec::new(alloc);
    for word in line.split(' ') {
        words.push(String::from_str(alloc, word)?)?;
    }
    let mut source = MemSource::new(Vec::from_slice(alloc, script.as_bytes())?, PER_CALL);
    let mut sink = MemSink::new(alloc, PER_CALL);
    let disk = FolderDisk::over(alloc, folder, Lock::Whole);
    let ended = ermia(rt, alloc, &words, &mut source, &mut sink, disk, &OpenGate);
    Ok((ended.status, ended.disk.into_files()))
}

// A call in words.
fn told(alloc: Global, call: Call) -> Result<String, AllocError> {
    match call {
        Call::FolderMissed => format!(in alloc; "no folder"),
        Call::FolderMade => format!(in alloc; "make the folder"),
        Call::FolderSynced => format!(in alloc; "sync the folder"),
        Call::ParentSynced => format!(in alloc; "sync the folder above"),
        Call::Missed(file) => format!(in alloc; "no {}", name(alloc, file)?),
        Call::Made(file) => format!(in alloc; "make {}", name(alloc, file)?),
        Call::Wrote(file) => format!(in alloc; "write {}", name(alloc, file)?),
        Call::Synced(file) => format!(in alloc; "sync {}", name(alloc, file)?),
        Call::Removed(file) => format!(in alloc; "remove {}", name(alloc, file)?),
    }
}

// The name of a file, a segment's with its number.
fn name(alloc: Global, file: File) -> Result<String, AllocError> {
    match file {
        File::Slot0 => String::from_str(alloc, "slot0"),
        File::Slot1 => String::from_str(alloc, "slot1"),
        File::Segment(number) => format!(in alloc; "log {number}"),
    }
}
