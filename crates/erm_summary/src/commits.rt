//! The transactions that a report tells committed, and the safe snapshots that it tells ended.
ghost use Rattle.std.specs.Prelude.{◌≡◌, ℕ, ◌+◌, ◌^◌, ◌<◌, ◌≤◌, List, [], ◌∷◌, ◌++◌, Some, IfOk, OnOk, length, map, Option};
ghost use Rattle.std.specs.List.{flat_map};
ghost use Rattle.erm_report.specs.declared.answer.Answer.{Answer as Answered};
ghost use Rattle.erm_script.specs.declared.script.Command.{Command as Asked};
ghost use Rattle.erm_script.specs.declared.script.ScriptLine.{ScriptLine as LineOfScript};
ghost use Rattle.erm_good_report.specs.GoodReport.{places_of, serial_of};
ghost use Rattle.erm_good_report.specs.Phases.{asks_safe};
ghost use Rattle.erm_good_report.specs.Transactions.{Said, said_of};
ghost use Rattle.erm_summary.specs.Told.{FollowEach, HaveRoom, IsAskedAt, closed_of, closes_of, history_told};

use crate::hearing::Session;
use crate::{ClosedSession, ToldCommit};
use erm_model::Seat;
use erm_report::Answer;
use erm_script::{Command, ScriptLine};
use std::alloc::{AllocError, Global};

/// The transactions that the answers tell committed, session by session, and in each in turn; and then so the safe snapshots that ended.
pub fn commits_told(
    alloc: Global,
    sessions: Seat,
    script: &[ScriptLine],
    answers: &[Answer],
    closed: &[ClosedSession],
) -> Result<Vec<ToldCommit>, AllocError>
    requires short { length script.now + length closed.now < 2 ^ 32 }
    ensures { IfOk result (λ commits. history_told script.now answers.now commits.items
        ≡ serial_of sessions (places_of script.now answers.now (map closed_of closed.now))) }
{
    let mut heard = silent(alloc, sessions)?;
    hear_lines(alloc, &mut heard, script, answers)?;
    hear_closes(alloc, &mut heard, closed)?;
    gather(alloc, heard)
}

// Sessions that were not answered yet.
fn silent(alloc: Global, sessions: Seat) -> Result<Vec<Session>, AllocError>
    ensures follows { IfOk result (λ heard. (script : List LineOfScript) (answers : List Answered) → FollowEach script answers [] 1 heard.items) }
    ensures room { IfOk result (λ heard. (more : ℕ) → more < 2 ^ 32 → HaveRoom more heard.items) }
    ensures count { IfOk result (λ heard. length heard.items ≡ sessions) }
{
    let mut heard = Vec::with_capacity(alloc, usize::from(sessions))?;
    for place in 0..sessions {
        heard.push(Session {
            seat: place + 1,
            over: 0,
            commits: Vec::new(alloc),
            current: None,
            ended: Vec::new(alloc),
            watched: None,
        })?;
    }
    Ok(heard)
}

// The sessions go on by the answers to the script's lines.
fn hear_lines(
    alloc: Global,
    heard: &mut Vec<Session>,
    script: &[ScriptLine],
    answers: &[Answer],
) -> Result<(), AllocError>
    requires room { HaveRoom (length script.now) heard.old.items }
    ensures follows { OnOk result (FollowEach script.now answers.now [] 1 heard.old.items
        → FollowEach script.now answers.now (said_of script.now answers.now) 1 heard.new.items) }
    ensures room { OnOk result ((more : ℕ) → HaveRoom (length script.now + more) heard.old.items → HaveRoom more heard.new.items) }
    ensures count { OnOk result (length heard.new.items ≡ length heard.old.items) }
{
    for (place, line) in script.iter().enumerate() {
        if let Some(answer) = answers.get(place) {
            let asks = asks_safe(&line.command);
            hear_at(alloc, heard, line.session, Some(place), asks, answer)?;
        }
    }
    Ok(())
}

// The sessions go on by how they were closed.
fn hear_closes(
    alloc: Global,
    heard: &mut Vec<Session>,
    closed: &[ClosedSession],
) -> Result<(), AllocError>
    requires room { HaveRoom (length closed.now) heard.old.items }
    ensures follows { OnOk result ((script : List LineOfScript) (answers : List Answered) (said : List Said) → FollowEach script answers said 1 heard.old.items
        → FollowEach script answers (said ++ closes_of (map closed_of closed.now)) 1 heard.new.items) }
    ensures count { OnOk result (length heard.new.items ≡ length heard.old.items) }
{
    for close in closed {
        hear_at(alloc, heard, close.session, None, false, &close.answer)?;
    }
    Ok(())
}

// The session of this seat goes on by an answer, if it is one of these.
fn hear_at(
    alloc: Global,
    heard: &mut Vec<Session>,
    seat: Seat,
    place: Option<usize>,
    asks: bool,
    answer: &Answer,
) -> Result<(), AllocError>
    requires room { HaveRoom 1 heard.old.items }
    ensures follows { OnOk result ((script : List LineOfScript) (answers : List Answered) (said : List Said) (asked : Option Asked)
        → IsAskedAt script answers place asked answer.now → asks_safe asked ≡ asks → FollowEach script answers said 1 heard.old.items
        → FollowEach script answers (said ++ record { session = seat; asked = asked; answer = answer.now } ∷ []) 1 heard.new.items) }
    ensures room { OnOk result ((more : ℕ) → HaveRoom (more + 1) heard.old.items → HaveRoom more heard.new.items) }
    ensures count { OnOk result (length heard.new.items ≡ length heard.old.items) }
{
    let number = usize::from(seat);
    if number == 0 || number > heard.len() {
        return Ok(());
    }
    heard[number - 1].hear(alloc, place, asks, answer)
}

// Whether a line asks for a safe snapshot.
fn asks_safe(command: &Command) -> bool
    ensures { result ≡ asks_safe (Some command.now) }
{
    matches!(command, Command::Safe)
}

// The commits of the sessions, one session after another, and then their snapshots that ended.
fn gather(alloc: Global, heard: Vec<Session>) -> Result<Vec<ToldCommit>, AllocError>
    ensures { IfOk result (λ placed. placed.items ≡ flat_map (λ s. s.commits.items) heard.items ++ flat_map (λ s. s.ended.items) heard.items) }
{
    let mut placed = Vec::new(alloc);
    let mut ended = Vec::new(alloc);
    for mut session in heard {
        placed.append(&mut session.commits)?;
        ended.append(&mut session.ended)?;
    }
    placed.append(&mut ended)?;
    Ok(placed)
}
