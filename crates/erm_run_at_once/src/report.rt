//! What is told of sessions that ran at once.
ghost use Rattle.std.specs.Prelude.{◌≡◌, ◌+◌, ◌≤◌, [], false, IfOk, length, vec_capacity, vec_len};
ghost use Rattle.erm_model.specs.Member.{◌∈◌};
ghost use Rattle.erm_model.specs.declared.limits.TheConstants.{LAST_NUMBER, SESSIONS};
ghost use Rattle.erm_joined.specs.Merged.{AreAll, AreFirst};
ghost use Rattle.erm_run_at_once.specs.Ran.{NoneLacked, answers_of, closes_of};
ghost use Rattle.erm_script.specs.declared.script.ScriptLine.{ScriptLine as LineOfScript};
ghost use Rattle.erm_threads.specs.Parts.{IsSeatOf};
ghost use Rattle.erm_run_at_once.specs.Told.{MayTell, TellsCut, TellsWhole, ToldOf};

use crate::apart::{Apart, take_apart};
use crate::cut::cut_report;
use erm_disk_run::RunStop;
use erm_joined::merge;
use erm_model::Name;
use erm_report::Line;
use erm_run_beside::{Ran, SessionWork};
use erm_script::ScriptLine;
use erm_summary::{Start, report_of};
use std::alloc::{AllocError, Global};

// Whether one of the sessions lacked memory.
fn has_lacked(works: &[SessionWork]) -> bool
    ensures { result ≡ false → NoneLacked works.now }
{
    for work in works {
        if work.lacked {
            return true;
        }
    }
    false
}

// The report of sessions that ran to their end.
fn whole_report(
    alloc: Global,
    start: Start,
    names: &[Name],
    script: &[ScriptLine],
    works: Vec<SessionWork>,
) -> Result<Vec<Line>, AllocError>
    requires few { vec_len works ≤ SESSIONS }
    requires seats { (l : LineOfScript) → l ∈ script.now → IsSeatOf (vec_len works) l }
    requires all { AreAll script.now (answers_of works.items) }
    requires named { length names.now ≤ SESSIONS }
    requires short { length script.now + SESSIONS ≤ LAST_NUMBER }
    ensures { IfOk result (λ lines. TellsWhole start names.now script.now (answers_of works.items) (closes_of works.items) lines.items) }
{
    let Apart { parts, closed } = take_apart(alloc, works)?;
    let answers = merge(alloc, script, parts)?;
    report_of(alloc, start, names, script, answers, closed)
}

// The report of sessions of whose disk a call failed, in the room for its lines.
fn report_up_to_fault(
    alloc: Global,
    start: &Start,
    lines: Vec<Line>,
    script: &[ScriptLine],
    works: Vec<SessionWork>,
) -> Result<Vec<Line>, AllocError>
    requires few { vec_len works ≤ SESSIONS }
    requires seats { (l : LineOfScript) → l ∈ script.now → IsSeatOf (vec_len works) l }
    requires first { AreFirst script.now (answers_of works.items) }
    requires none { lines.items ≡ [] }
    requires room { length script.now + 2 ≤ vec_capacity lines }
    ensures { IfOk result (λ told. TellsCut start.now.stamp start.now.run script.now (answers_of works.items) told.items) }
{
    let Apart { parts, closed: _ } = take_apart(alloc, works)?;
    cut_report(alloc, lines, start.stamp, start.run, script, parts)
}

/// The lines that tell of sessions that ran at once, whose table has a session for each of these names. Where the disk failed these are the lines of the first
/// answers of each, put into `lines`, which is empty and has room for them. `Memory` also where one of them lacked memory.
pub(crate) fn report_ran(
    alloc: Global,
    start: Start,
    names: &[Name],
    lines: Vec<Line>,
    script: &[ScriptLine],
    ran: Ran,
) -> Result<Vec<Line>, RunStop>
    requires may { MayTell ran.failed script.now ran.sessions.items }
    requires named { length names.now ≤ SESSIONS }
    requires short { length script.now + SESSIONS ≤ LAST_NUMBER }
    requires none { lines.items ≡ [] }
    requires room { length script.now + 2 ≤ vec_capacity lines }
    ensures { ToldOf result start names.now script.now ran.failed ran.sessions.items }
{
    let Ran {
        failed,
        sessions: works,
    } = ran;
    if has_lacked(&works) {
        return Err(RunStop::Memory);
    }
    if failed {
        return match report_up_to_fault(alloc, &start, lines, script, works) {
            Ok(lines) => Err(RunStop::DiskFault(lines)),
            Err(AllocError) => Err(RunStop::Memory),
        };
    }
    match whole_report(alloc, start, names, script, works) {
        Ok(lines) => Ok(lines),
        Err(AllocError) => Err(RunStop::Memory),
    }
}
