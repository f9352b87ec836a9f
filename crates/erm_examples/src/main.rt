//! Runs worked examples through the top call over memory, and prints a line for each.
//!
//! `rows.txt` lists those that run a script on an empty disk: `NAME.script` has the script and, in `NAME.report`, a line with
//! the status comes before the bytes that are to be put. Where all its lines are of one session it is run with a thread for each session
//! too, and is to put the same. `disks.txt` lists those that call the program several times on one
//! disk: `NAME.steps` has the calls, what they are to print, and what befalls the disk between them. Then come the longest
//! script, words and what they ask for, and objects and log used up; and each call of source and sink that fails.
#![tactic(auto)]

mod changes;
mod device;
mod edges;
mod faults;
mod memory;
mod steps;
mod stops;

use anyhow::{Result, ensure};
use std::alloc::{AllocError, Global};
use std::fs;
use std::rt::Files;
use std::sync::Wait;
use std::thread::Threads;

/// How many bytes source and sink move a call, one run of each example for each.
const PER_CALL: [usize; 3] = [1, 7, 65536];

fn main(rt: HostRuntime) -> Result<()> {
    check_rows(&rt, rt.alloc())?;
    check_disks(&rt, rt.alloc())?;
    edges::check(&rt, rt.alloc())?;
    println!(rt; "edges: as expected")?;
    faults::check(&rt, rt.alloc())?;
    println!(rt; "faults of source and sink: as expected")?;
    Ok(())
}

// Runs the examples on an empty disk. A line is begun before each, so that it tells which one fails.
fn check_rows<R: Files + AllocGlobal + Print + Threads + Wait + Sync>(
    rt: &R,
    alloc: Global,
) -> Result<()> {
    let names = fs::read_to_string(rt, "rows.txt")?;
    for name in names.lines() {
        print!(rt; "{name}: ")?;
        check_named_row(rt, alloc, name)?;
        println!(rt; "as expected")?;
    }
    Ok(())
}

// Carries out the examples over a disk.
fn check_disks<R: Files + AllocGlobal + Print + Threads + Wait + Sync>(
    rt: &R,
    alloc: Global,
) -> Result<()> {
    let names = fs::read_to_string(rt, "disks.txt")?;
    for name in names.lines() {
        print!(rt; "{name}: ")?;
        let lines = read(rt, alloc, name, "steps")?;
        steps::carry_out(rt, alloc, &lines)?;
        println!(rt; "as expected")?;
    }
    Ok(())
}

// Runs the example of a name.
fn check_named_row<R: Files + AllocGlobal + Threads + Wait + Sync>(
    rt: &R,
    alloc: Global,
    name: &str,
) -> Result<()> {
    let script = read(rt, alloc, name, "script")?;
    let report = read(rt, alloc, name, "report")?;
    check_row(rt, alloc, "erm run", &script, &report)?;
    if !is_of_one_session(&script) {
        return Ok(());
    }
    check_row(rt, alloc, "erm threads", &script, &report)
}

// Whether all lines of a script are of one session.
fn is_of_one_session(script: &str) -> bool {
    let name = first_name(script);
    for line in script.lines() {
        if is_read(line) && !is_of_session(line, name) {
            return false;
        }
    }
    true
}

// The first word of the first line that is read, or no bytes where none is.
fn first_name(script: &str) -> &str {
    for line in script.lines() {
        if is_read(line) {
            return first_word(line);
        }
    }
    ""
}

// Whether a line is read: one without bytes isn't, and no comment.
fn is_read(line: &str) -> bool {
    !line.is_empty() && !line.starts_with('#')
}

// Whether a line is of the session of this name. Those of the log are of none.
fn is_of_session(line: &str, name: &str) -> bool {
    line != "flush" && line != "checkpoint" && first_word(line) == name
}

// The first word of a line.
fn first_word(line: &str) -> &str {
    line.split(' ').next().unwrap_or("")
}

// The text of an example's file.
fn read<R: Files + AllocGlobal>(rt: &R, alloc: Global, name: &str, kind: &str) -> Result<String> {
    let file = format!(in alloc; "{name}.{kind}")?;
    Ok(fs::read_to_string(rt, &file)?)
}

// Calls the program with these words over an example at each size of call, and compares status and bytes.
fn check_row<R: Threads + Wait + Sync>(
    rt: &R,
    alloc: Global,
    words: &str,
    script: &str,
    report: &str,
) -> Result<()> {
    for per_call in PER_CALL {
        let shown = show(rt, alloc, words, script, per_call)?;
        ensure!(
            shown.as_str() == report,
            "{words}: other bytes at {per_call} a call"
        );
    }
    Ok(())
}

// A line with the status of a call over a script, and what it prints.
fn show<R: Threads + Wait + Sync>(
    rt: &R,
    alloc: Global,
    words: &str,
    script: &str,
    per_call: usize,
) -> Result<String, AllocError> {
    let ended = memory::call_anew(rt, alloc, words, script.as_bytes(), per_call)?;
    format!(in alloc; "{}\n{}", ended.status, ended.text())
}
