//! Faults of source and sink: of a run of one script each call fails in turn.
use crate::device::Device;
use crate::memory::{Outcome, call, words_of};
use anyhow::{Result, ensure};
use erm_outside_mem::{MemSink, MemSource};
use std::alloc::{AllocError, Global};
use std::sync::Wait;
use std::thread::Threads;

/// The script that is run.
const SCRIPT: &str = "a begin\na put 0 10 aa\na put 0 20 bb\na commit\n";

/// What it prints.
const REPORT: &str =
    "open 8 run 1\n1 begin 13\n2 ok\n3 ok\n4 committed 13 succ 13 pred 0\norder 1\ncommit a 1 stamp 13 succ 13 pred 0\n\
     map 2\npair 0 10 aa\npair 0 20 bb\nend\n";

/// How many bytes source and sink move a call, and how many calls of the source and of the sink the run makes then.
const CALLS: [(usize, u64, u64); 3] = [(1, 46, 143), (7, 8, 21), (20, 4, 8)];

/// The words of a call over the script: with a thread for each session it makes the same calls of source and sink.
const LINES: [&str; 2] = ["erm run", "erm threads"];

/// Fails each call of the source, alone and beside the first one of the sink, and each call of the sink; and of both the first one that
/// the run doesn't make.
pub fn check<R: Threads + Wait + Sync>(rt: &R, alloc: Global) -> Result<()> {
    for line in LINES {
        check_line(rt, alloc, line)?;
    }
    Ok(())
}

// The same of a call with these words.
fn check_line<R: Threads + Wait + Sync>(rt: &R, alloc: Global, line: &str) -> Result<()> {
    for (per_call, taken, put) in CALLS {
        fail_source(rt, alloc, line, per_call, taken)?;
        fail_sink(rt, alloc, line, per_call, put)?;
    }
    Ok(())
}

// Fails each of so many calls of the source, and one more.
fn fail_source<R: Threads + Wait + Sync>(
    rt: &R,
    alloc: Global,
    line: &str,
    per_call: usize,
    taken: u64,
) -> Result<()> {
    for number in 1..=taken {
        let alone = run_failing(rt, alloc, line, per_call, &[number], &[])?;
        ensure!(
            alone.is(4, "read fault\n"),
            "{line}: source: {per_call}, {number}"
        );
        let beside = run_failing(rt, alloc, line, per_call, &[number], &[1])?;
        ensure!(
            beside.is(4, ""),
            "{line}: source and sink: {per_call}, {number}"
        );
    }
    let whole = run_failing(rt, alloc, line, per_call, &[taken.saturating_add(1)], &[])?;
    ensure!(
        whole.is(0, REPORT),
        "{line}: no call of the source: {per_call}"
    );
    Ok(())
}

// Fails each of so many calls of the sink, and one more. What was put before stays.
fn fail_sink<R: Threads + Wait + Sync>(
    rt: &R,
    alloc: Global,
    line: &str,
    per_call: usize,
    put: u64,
) -> Result<()> {
    let mut front = 0;
    for number in 1..=put {
        let ended = run_failing(rt, alloc, line, per_call, &[], &[number])?;
        let stays = REPORT.as_bytes().starts_with(&ended.bytes) && ended.bytes.len() == front;
        ensure!(
            ended.status == 5 && stays,
            "{line}: sink: {per_call}, {number}"
        );
        front = front.saturating_add(per_call);
    }
    let whole = run_failing(rt, alloc, line, per_call, &[], &[put.saturating_add(1)])?;
    ensure!(
        whole.is(0, REPORT),
        "{line}: no call of the sink: {per_call}"
    );
    Ok(())
}

// Calls the program with these words over the script on an empty disk, with so many bytes a call, where these calls of source and sink fail.
fn run_failing<R: Threads + Wait + Sync>(
    rt: &R,
    alloc: Global,
    line: &str,
    per_call: usize,
    taking: &[u64],
    putting: &[u64],
) -> Result<Outcome, AllocError> {
    let per_call = per_call.max(1);
    let script = Vec::from_slice(alloc, SCRIPT.as_bytes())?;
    let source = MemSource::new(script, per_call).failing(Vec::from_slice(alloc, taking)?);
    let sink = MemSink::new(alloc, per_call).failing(Vec::from_slice(alloc, putting)?);
    let words = words_of(alloc, line)?;
    call(rt, alloc, &words, source, sink, Device::new(alloc))
}
