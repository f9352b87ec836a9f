//! Calls of the program that are stopped at a call of the disk: all calls of the disk from there on fail.
use crate::device::Device;
use crate::memory::{Outcome, call_over};
use crate::steps::Call;
use anyhow::{Result, bail, ensure};
use erm_outside_mem::Pick;
use std::alloc::{AllocError, Global};
use std::sync::Wait;
use std::thread::Threads;

/// More calls of the disk than any of these calls of the program makes.
const MOST_CALLS: u64 = 1000;

/// The bytes that source and sink move a call.
const PER_CALL: usize = 65536;

/// The status of a call of the program that the disk failed.
const DISK_FAULT: u8 = 6;

/// What it prints last.
const LAST_LINE: &str = "disk fault\n";

/// The calls that are made in turn on what a crash leaves, with nothing to read, and what stands behind what each tells.
const BEHIND: [(&str, &str); 3] = [
    ("erm recover", ", "),
    ("erm run", ", "),
    ("erm recover", "\n"),
];

/// What a crash may leave of what was not waited for.
const PICKS: [Pick; 3] = [Pick::Nothing, Pick::All, Pick::Marks];

/// What comes right behind a call that was stopped.
#[derive(Clone, Copy)]
enum Next {
    /// A crash.
    Crash,
    /// A run, on all that was left, and then a crash.
    Run,
}

/// Stops a call of the program at each call of the disk in turn, until none is left. It prints its report up to there, as it does where
/// that call of the disk fails alone.
/// What calls then tell of what a crash leaves are the lines that are named, in this order: first where nothing is kept of what was not
/// waited for, then where all of it is, then where marks of it are. Of lines that follow one another and are the same one is named.
/// So are those of what is told where a run goes on before the crash.
pub fn check<R: Threads + Wait + Sync>(
    rt: &R,
    alloc: Global,
    device: &Device,
    call: &Call,
) -> Result<()> {
    if !call.behind.is_empty() {
        fail_each(rt, alloc, device, call)?;
    }
    check_next(rt, alloc, device, call, Next::Crash, &call.behind)?;
    check_next(rt, alloc, device, call, Next::Run, &call.later)
}

// Fails each call of the disk alone, until none is left: the call of the program ends there too, though the next ones would pass.
fn fail_each<R: Threads + Wait + Sync>(
    rt: &R,
    alloc: Global,
    device: &Device,
    call: &Call,
) -> Result<()> {
    for number in 1..MOST_CALLS {
        let failing = device.failing_at(alloc, number)?;
        let script = call.script.as_slice();
        let ended = call_over(rt, alloc, &call.words, script, PER_CALL, failing)?;
        if ended.status != DISK_FAULT {
            return Ok(());
        }
        ensure!(is_cut(&call.report, ended.text()), "other bytes, {number}");
    }
    bail!("too many calls of the disk")
}

// The same with what comes right behind the stop, where lines are named.
fn check_next<R: Threads + Wait + Sync>(
    rt: &R,
    alloc: Global,
    device: &Device,
    call: &Call,
    next: Next,
    lines: &String,
) -> Result<()> {
    if lines.is_empty() {
        return Ok(());
    }
    let mut told = String::new(alloc);
    for pick in PICKS {
        stop_at_each(rt, alloc, device, call, next, pick, &mut told)?;
    }
    ensure!(told.as_str() == lines.as_str(), "others told: {told}");
    Ok(())
}

// Stops a call of the program at each call of the disk, and adds what calls tell of what a crash leaves then.
fn stop_at_each<R: Threads + Wait + Sync>(
    rt: &R,
    alloc: Global,
    device: &Device,
    call: &Call,
    next: Next,
    pick: Pick,
    told: &mut String,
) -> Result<()> {
    for calls in 0..MOST_CALLS {
        let ended = stop(rt, alloc, device, call, calls)?;
        if ended.status != DISK_FAULT {
            return Ok(());
        }
        ensure!(is_cut(&call.report, ended.text()), "other bytes at {calls}");
        let line = match next {
            Next::Crash => tell_behind(rt, alloc, ended.device.image(pick)?)?,
            Next::Run => tell_later(rt, alloc, ended.device.going_on(), pick)?,
        };
        if !is_last(told, &line) {
            told.push_str(&line)?;
        }
    }
    bail!("too many calls of the disk")
}

// Makes a call of the program on a copy of a disk, of which each call behind the first so many fails.
fn stop<R: Threads + Wait + Sync>(
    rt: &R,
    alloc: Global,
    device: &Device,
    call: &Call,
    calls: u64,
) -> Result<Outcome, AllocError> {
    let stopped = device.stopped_at(calls)?;
    let script = call.script.as_slice();
    call_over(rt, alloc, &call.words, script, PER_CALL, stopped)
}

// A line of what these calls tell of a disk, made one after another: of each the status and the first line that it prints. Between two
// of them a crash takes away what was not waited for.
fn tell_behind<R: Threads + Wait + Sync>(
    rt: &R,
    alloc: Global,
    mut device: Device,
) -> Result<String, AllocError> {
    let mut told = String::new(alloc);
    for (words, end) in BEHIND {
        let ended = call_over(rt, alloc, words, &[], PER_CALL, device)?;
        let line = ended.text().lines().next().unwrap_or("");
        told.push_str(format!(in alloc; "{} {line}{end}", ended.status)?.as_str())?;
        device = ended.device.image(Pick::Nothing)?;
    }
    Ok(told)
}

// A line of what a run tells that goes on with a disk, and of what `recover` tells of what a crash leaves then.
fn tell_later<R: Threads + Wait + Sync>(
    rt: &R,
    alloc: Global,
    device: Device,
    pick: Pick,
) -> Result<String, AllocError> {
    let ran = call_over(rt, alloc, "erm run", &[], PER_CALL, device)?;
    let found = call_over(
        rt,
        alloc,
        "erm recover",
        &[],
        PER_CALL,
        ran.device.image(pick)?,
    )?;
    let first = ran.text().lines().next().unwrap_or("");
    let second = found.text().lines().next().unwrap_or("");
    format!(in alloc; "{} {first}, {} {second}\n", ran.status, found.status)
}

// Whether the last of some lines is this one.
fn is_last(lines: &str, line: &str) -> bool {
    match lines.strip_suffix(line) {
        Some(front) => front.is_empty() || front.ends_with('\n'),
        None => false,
    }
}

// Whether a report is a front of another, cut by a fault of the disk: in place of an answer, or outside the lines.
fn is_cut(whole: &str, cut: &str) -> bool {
    let Some(front) = cut.strip_suffix(LAST_LINE) else {
        return false;
    };
    let last = front.rsplit('\n').next().unwrap_or("");
    match whole.strip_prefix(front) {
        Some(rest) if last.is_empty() => starts_with_word(rest),
        Some(_) => is_number(last),
        None => false,
    }
}

// Whether a text starts with a line that has no number.
fn starts_with_word(text: &str) -> bool {
    text.bytes()
        .next()
        .is_some_and(|byte| !byte.is_ascii_digit())
}

// Whether a text is a number with a space behind it.
fn is_number(text: &str) -> bool {
    match text.strip_suffix(' ') {
        Some(digits) => digits.parse::<u32>().is_ok(),
        None => false,
    }
}
