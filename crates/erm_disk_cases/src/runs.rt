//! Scripts run on a disk in memory, one after another.
ghost use Rattle.std.specs.Prelude.{◌≡◌, ◌∷◌, [], ℕ, List};
ghost use Rattle.erm_disk_run.specs.Runs.{IsScriptFor};

use crate::told::{empty, is_told, stopping};
use erm_disk_run::{OnDisk, RunStop, run_on_disk};
use erm_model::{Name, Value};
use erm_outside_mem::{MemDisk, Silent};
use erm_report::Line;
use erm_script::{Command, NO_SESSION, ScriptLine};
use std::alloc::Global;
use std::process::Abort;
use std::test::Fail;

// What a run tells that writes two keys and flushes them.
const WRITTEN: &str =
    "open 8 run 1\n1 begin 13\n2 ok\n3 ok\n4 committed 13 succ 13 pred 0\n5 flushed 38\norder 1\ncommit a 1 stamp 13 succ 13 pred 0\nmap 2\npair 0 10 aa\npair 0 20 bb\nend\n";

// The same where the disk fails when it is flushed.
const CUT: &str =
    "open 8 run 1\n1 begin 13\n2 ok\n3 ok\n4 committed 13 succ 13 pred 0\n5 disk fault\n";

// What the next run tells, which has no session.
const SAVED: &str =
    "open 38 run 2\n1 empty 43\n2 checkpoint 43\norder 0\nmap 2\npair 0 10 aa\npair 0 20 bb\nend\n";

// And the one behind it, which reads a key.
const READ: &str =
    "open 43 run 3\n1 begin 48\n2 value aa\nclose a aborted\norder 0\nmap 2\npair 0 10 aa\npair 0 20 bb\nend\n";

// What a run behind the first one tells that goes back over a put, commits and is flushed.
const BACK: &str =
    "open 38 run 2\n1 begin 43\n2 saved 1\n3 ok\n4 back 1\n5 value aa\n6 committed 43 succ 43 pred 0\n7 flushed 52\norder 1\ncommit a 1 stamp 43 succ 43 pred 0\nmap 2\npair 0 10 aa\npair 0 20 bb\nend\n";

// And the one behind it, which reads the key.
const KEPT: &str =
    "open 52 run 3\n1 begin 57\n2 value aa\nclose a aborted\norder 0\nmap 2\npair 0 10 aa\npair 0 20 bb\nend\n";

// A line of the only session.
fn of_session(line: u32, command: Command) -> ScriptLine
    ensures { result ≡ record { line = line; session = 1; command = command } }
{
    ScriptLine {
        line,
        session: 1,
        command,
    }
}

// A line of the log.
fn of_log(line: u32, command: Command) -> ScriptLine
    ensures { result ≡ record { line = line; session = 0; command = command } }
{
    ScriptLine {
        line,
        session: NO_SESSION,
        command,
    }
}

// The lines of a run, whole or up to a fault.
fn lines_of(ended: Result<Vec<Line>, RunStop>) -> Option<Vec<Line>> {
    match ended {
        Ok(lines) => Some(lines),
        Err(RunStop::DiskFault(lines)) => Some(lines),
        Err(_) => None,
    }
}

// Runs a script on a disk, which tells these lines, up to a fault where the disk fails.
fn tells(
    rt: &impl Abort,
    alloc: Global,
    disk: Silent<MemDisk>,
    names: &[Name],
    script: &[ScriptLine],
    told: &str,
) -> Result<Silent<MemDisk>, Fail>
    requires script { IsScriptFor names.now script.now }
{
    let OnDisk { disk, ended } = run_on_disk(alloc, disk, names, script);
    assert!(rt; is_told(alloc, lines_of(ended), told)?, "{told}");
    Ok(disk)
}

// A session writes two keys, and the log is flushed.
fn writes() -> [ScriptLine; 5]
    ensures { (name : List ℕ) → IsScriptFor (name ∷ []) result }
{
    let first = Value::new(b"\xaa").unwrap();
    let second = Value::new(b"\xbb").unwrap();
    [
        of_session(1, Command::Begin),
        of_session(
            2,
            Command::Put {
                table: 0,
                key: 10,
                value: first,
            },
        ),
        of_session(
            3,
            Command::Put {
                table: 0,
                key: 20,
                value: second,
            },
        ),
        of_session(4, Command::Commit),
        of_log(5, Command::Flush),
    ]
}

// A session reads a key.
fn reads() -> [ScriptLine; 2]
    ensures { (name : List ℕ) → IsScriptFor (name ∷ []) result }
{
    [
        of_session(1, Command::Begin),
        of_session(2, Command::Get { table: 0, key: 10 }),
    ]
}

// A session goes back over a put of a key, reads it, and commits, and the log is flushed.
fn goes_back() -> [ScriptLine; 7]
    ensures { (name : List ℕ) → IsScriptFor (name ∷ []) result }
{
    let undone = Value::new(b"\xcc").unwrap();
    [
        of_session(1, Command::Begin),
        of_session(2, Command::Save),
        of_session(
            3,
            Command::Put {
                table: 0,
                key: 10,
                value: undone,
            },
        ),
        of_session(4, Command::Back { n: 1 }),
        of_session(5, Command::Get { table: 0, key: 10 }),
        of_session(6, Command::Commit),
        of_log(7, Command::Flush),
    ]
}

#[test]
fn runs_go_on(rt: HostRuntime) -> Result<(), Fail> {
    let alloc = rt.alloc();
    let a = [Name::new(b"a").unwrap()];
    let alone = [of_log(1, Command::Flush), of_log(2, Command::Checkpoint)];
    let disk = tells(&rt, alloc, empty(alloc), &a, &writes(), WRITTEN)?;
    let disk = tells(&rt, alloc, disk, &[], &alone, SAVED)?;
    tells(&rt, alloc, disk, &a, &reads(), READ)?;
    Ok(())
}

#[test]
fn an_undone_put_leaves_no_value(rt: HostRuntime) -> Result<(), Fail> {
    let alloc = rt.alloc();
    let a = [Name::new(b"a").unwrap()];
    let disk = tells(&rt, alloc, empty(alloc), &a, &writes(), WRITTEN)?;
    let disk = tells(&rt, alloc, disk, &a, &goes_back(), BACK)?;
    tells(&rt, alloc, disk, &a, &reads(), KEPT)?;
    Ok(())
}

// A run on a disk that does so many calls: none where it isn't opened, else whether it is whole, and whether its lines are told.
fn stopped(alloc: Global, calls: u64) -> Result<Option<(bool, bool)>, Fail> {
    let a = [Name::new(b"a").unwrap()];
    let OnDisk { disk: _, ended } = run_on_disk(alloc, stopping(alloc, calls), &a, &writes());
    let is_whole = ended.is_ok();
    let told = if is_whole { WRITTEN } else { CUT };
    let Some(lines) = lines_of(ended) else {
        return Ok(None);
    };
    Ok(Some((is_whole, is_told(alloc, Some(lines), told)?)))
}

#[test]
fn faults_cut_runs(rt: HostRuntime) -> Result<(), Fail> {
    let mut is_cut = false;

    // The run takes at most 17 calls of the disk, and the last ones are those of its flush.
    for fewer in 0..8 {
        if let Some((is_whole, is_told)) = stopped(rt.alloc(), 17 - fewer)? {
            assert!(rt; is_told, "{fewer}");
            if !is_whole {
                is_cut = true;
                break;
            }
        }
    }
    assert!(rt; is_cut);
    Ok(())
}
