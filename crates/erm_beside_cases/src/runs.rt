//! Sessions that run on an empty disk in memory, and what it recovers to.
ghost use Rattle.std.specs.Prelude.{◌≡◌, ◌≤◌, IfOk, map, vec_len};
ghost use Rattle.erm_model.specs.Rows.{rows_of};
ghost use Rattle.erm_model.specs.declared.limits.TheConstants.{OID_LIMIT, SESSIONS};
ghost use Rattle.erm_node.specs.Sound.{sound_law};
ghost use Rattle.erm_run_beside.specs.Jobs.{AreLines};
ghost use Rattle.erm_start.specs.Recovered.{IsFirstObject};

use erm_model::{Map, Reply, Seat, Value};
use erm_node::{SoundRows, map_of, zero_rows_are_not_reached};
use erm_outside::Gate;
use erm_outside_mem::{MemDisk, Pick, Silent};
use erm_recover::{Recovered, SoundTest, open_log, recover, zero_rows_are_sound};
use erm_report::Answer;
use erm_rule::Opening;
use erm_run_beside::{Ran, run_sessions};
use erm_script::{Command, ScriptLine};
use erm_start::first_object;
use erm_worker_cases::are_of;
use std::alloc::Global;
use std::sync::Wait;
use std::test::Fail;
use std::thread::Threads;

/// A line of a session.
pub fn line(session: Seat, command: Command) -> ScriptLine {
    ScriptLine {
        line: 1,
        session,
        command,
    }
}

/// Sets key 10 of a table to 7.
pub fn put(table: u8) -> Command {
    Command::Put {
        table,
        key: 10,
        value: Value::new(&[7]).unwrap(),
    }
}

/// Whether key 10 of a table has the value 7.
pub fn has_put(map: &Map, table: u8) -> bool {
    match map.get(table, 10) {
        Some(value) => value.as_slice() == [7].as_slice(),
        None => false,
    }
}

// A letter for each kind of answer that a session of these cases may have.
fn letter(answer: &Answer) -> u8 {
    match answer {
        Answer::Began(_) => b'b',
        Answer::Replied(Reply::Done) => b'd',
        Answer::Sealed(_) => b's',
        Answer::Committed { .. } => b'c',
        Answer::Durable(_) => b'l',
        _ => b'?',
    }
}

/// Whether a session was answered so from its first line on, as far as both go.
pub fn are_first(answers: &[Answer], letters: &[u8]) -> bool {
    for (answer, want) in answers.iter().zip(letters) {
        if letter(answer) != *want {
            return false;
        }
    }
    true
}

/// The lines of each session, in the order of the seats, from 1 on, if they are lines of it alone.
pub fn checked(parts: Vec<Vec<ScriptLine>>) -> Result<Vec<Vec<ScriptLine>>, Fail>
    requires few { vec_len parts ≤ SESSIONS }
    ensures many { IfOk result (λ checked. vec_len checked ≡ vec_len parts) }
    ensures lines { IfOk result (λ checked. AreLines (map (λ p. p.items) checked.items)) }
{
    for place in 0..parts.len() {
        if !are_of(&parts[place], place as Seat + 1) {
            return Err(Fail::new("these are no lines of the session"));
        }
    }
    Ok(parts)
}

// What a disk recovers to.
fn recovered(alloc: Global, disk: &mut Silent<MemDisk>) -> Result<Recovered, Fail> {
    zero_rows_are_sound();
    match recover(alloc, disk, &SoundTest) {
        Ok(recovered) => Ok(recovered),
        Err(_) => Err(Fail::new("the disk recovers to nothing")),
    }
}

/// The map that is left of a disk after a crash that keeps only what was waited for.
pub fn left(alloc: Global, disk: &Silent<MemDisk>) -> Result<Map, Fail> {
    let disk = disk.disk.image(Pick::Nothing)?;
    let found = recovered(alloc, &mut Silent { disk })?;
    Ok(map_of(alloc, &found.rows)?)
}

// The opening of the log of an empty disk.
fn opened_log(alloc: Global, disk: &mut Silent<MemDisk>) -> Result<Opening, Fail>
    ensures none { IfOk result (λ o. o.sessions ≡ 0) }
    ensures tail { IfOk result (λ o. o.tail ≡ 13) }
    ensures run { IfOk result (λ o. o.run ≡ 1) }
    ensures first { IfOk result (λ o. IsFirstObject (rows_of o.rows.items) o.first) }
    ensures rows { IfOk result (λ o. vec_len o.rows ≡ OID_LIMIT) }
    ensures meets { IfOk result (λ o. sound_law.meets (rows_of o.rows.items)) }
{
    zero_rows_are_sound();
    let Ok(found) = recover(alloc, disk, &SoundTest) else {
        return Err(Fail::new("the disk recovers to nothing"));
    };
    let Ok(tail) = open_log::<Silent<MemDisk>, SoundRows>(disk, &found) else {
        return Err(Fail::new("the log isn't opened"));
    };
    if tail != 13 || found.run != 0 {
        return Err(Fail::new("the disk wasn't empty"));
    }
    Ok(Opening {
        sessions: 0,
        tail: 13,
        run: 1,
        first: first_object(&found.rows),
        rows: found.rows,
    })
}

/// The sessions run, past this gate, on an empty disk of which this call fails: none where its number is 0.
pub fn ran<G: Gate + Sync, R: Threads + Wait + Sync>(
    rt: &R,
    alloc: Global,
    fails: u64,
    gate: &G,
    parts: Vec<Vec<ScriptLine>>,
) -> Result<(Silent<MemDisk>, Ran), Fail>
    requires few { vec_len parts ≤ SESSIONS }
    requires lines { AreLines (map (λ p. p.items) parts.items) }
{
    zero_rows_are_not_reached();
    let disk = MemDisk::new(alloc).failing(vec![in alloc; fails; 1]?);
    let mut disk = Silent { disk };
    let opening = opened_log(alloc, &mut disk)?;
    let (disk, ran) = run_sessions::<SoundRows, Silent<MemDisk>, G, R>(
        rt, alloc, &opening, disk, gate, parts,
    );
    Ok((disk, ran?))
}
