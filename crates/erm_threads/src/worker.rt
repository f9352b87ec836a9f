//! What the worker of a session does.
ghost use Rattle.std.specs.Prelude.{◌≡◌, ◌<◌, ◌≤◌, [], None, false, IfErr, IfOk, OnOk, length, vec_capacity, vec_len};
ghost use Rattle.erm_model.specs.declared.outcome.Phase.TheVariants.{Active, Sealed};
ghost use Rattle.erm_model.specs.RowTransaction.{SameLaw};
ghost use Rattle.erm_node.specs.Sound.{sound_law};
ghost use Rattle.erm_world.specs.Face.{Grows};
ghost use Rattle.erm_world.specs.World.{View, phase_at};
ghost use Rattle.erm_beside.specs.Laws.{GoesOnward};
ghost use Rattle.erm_worker.specs.Work.{GaveUp, RanShort};
ghost use Rattle.erm_threads.specs.Work.{DidWork, IsJob, LeftWhenTold, MayWork, WasEnded, Worked, done_of};

use crate::Job;
use erm_beside::{SafeSession, SharedSession};
use erm_model::Phase;
use erm_report::Answer;
use erm_script::ScriptLine;
use erm_worker::{Turns, close_session, run_lines};
use std::alloc::{AllocError, Global};
use std::sync::Wait;

// Gives the transaction of a session up where it is active.
fn leave<S: SharedSession>(session: &mut S, shared: &S::Shared)
    requires stands { S.stands shared.now session.old }
    ensures stands { S.stands shared.now session.new }
    ensures onward { GoesOnward (S.seat session.old) (S.seat session.new) (S.ends session.old) (S.ends session.new) }
    ensures rests { phase_at (S.own session.new) (S.seat session.old) ≡ Active → ⊥ }
    ensures gave { GaveUp (phase_at (S.own session.old) (S.seat session.old)) (S.seat session.old) (S.own session.old) (S.own session.new) }
{
    if let Phase::Active = session.phase(shared) {
        session.abort(shared);
    }
}

// Closes a session behind its last line where it has a transaction, or a snapshot.
fn end<S: SafeSession, T: Turns, R: Wait>(
    rt: &R,
    session: &mut S,
    shared: &S::Shared,
    turns: &mut T,
) -> Option<Answer>
    requires stands { S.stands shared.now session.old }
    ensures stands { S.stands shared.now session.new }
    ensures onward { GoesOnward (S.seat session.old) (S.seat session.new) (S.ends session.old) (S.ends session.new) }
    ensures ended { WasEnded (phase_at (S.own session.old) (S.seat session.old)) (S.seat session.old) result (S.own session.old) (S.own session.new) }
    ensures waits { result ≡ None → phase_at (S.own session.new) (S.seat session.old) ≡ Sealed → T.told turns.new }
{
    match session.phase(shared) {
        Phase::Idle => None,
        _ => close_session(rt, session, shared, turns),
    }
}

// Runs the lines of a session, and closes it where none is left.
fn run<S: SafeSession, T: Turns, R: Wait>(
    rt: &R,
    alloc: Global,
    session: &mut S,
    shared: &S::Shared,
    turns: &mut T,
    lines: &[ScriptLine],
    answers: &mut Vec<Answer>,
) -> Result<Option<Answer>, AllocError>
    requires law { SameLaw S.law sound_law }
    requires stands { S.stands shared.now session.old }
    requires may { MayWork (S.seat session.old) (S.own session.old) lines.now }
    requires none { answers.old.items ≡ [] }
    requires room { length lines.now ≤ vec_capacity answers.old }
    ensures stands { S.stands shared.now session.new }
    ensures onward { GoesOnward (S.seat session.old) (S.seat session.new) (S.ends session.old) (S.ends session.new) }
    ensures rests { OnOk result (phase_at (S.own session.new) (S.seat session.old) ≡ Active → ⊥) }
    ensures most { length answers.new.items ≤ length lines.now }
    ensures did { IfOk result (λ closed. (f : View) → S.ends session.new f → DidWork f (S.seat session.old) lines.now answers.new.items closed (S.own session.old) (S.own session.new)) }
    ensures left { OnOk result (length answers.new.items < length lines.now → T.told turns.new) }
    ensures waits { IfOk result (λ closed. closed ≡ None → phase_at (S.own session.new) (S.seat session.old) ≡ Sealed → T.told turns.new) }
    ensures short { IfErr result (λ _. (f : View) → S.ends session.new f → RanShort Grows f (S.seat session.old) lines.now answers.new.items (S.own session.old) (S.own session.new)) }
{
    run_lines(rt, alloc, session, shared, turns, lines, answers)?;
    if answers.len() < lines.len() {
        return Ok(None);
    }
    Ok(end(rt, session, shared, turns))
}

/// Runs the lines of a session to their end, and closes it behind them, unless the worker is told to stop. Where memory runs out, the
/// session stays all the same, with the answers up to then, and the other workers are told; and so does what the worker waited by.
pub fn work<S: SafeSession, T: Turns, R: Wait>(
    rt: &R,
    alloc: Global,
    shared: &S::Shared,
    job: &mut Job<S, T>,
)
    requires law { SameLaw S.law sound_law }
    requires job { IsJob (S.stands shared.now) S.seat S.own job.old }
    ensures worked { Worked (S.stands shared.now) S.seat S.own S.ends job.old (done_of job.new) }
    ensures told { LeftWhenTold (λ turns. T.told turns × (T.starved turns ≡ false)) S.seat S.own job.old job.new }
{
    match run(
        rt,
        alloc,
        &mut job.session,
        shared,
        &mut job.turns,
        job.lines.as_slice(),
        &mut job.answers,
    ) {
        Ok(closed) => {
            job.closed = closed;
            job.lacked = job.turns.is_starved();
        }
        Err(AllocError) => {
            leave(&mut job.session, shared);
            job.turns.tell_starved();
            job.closed = None;
            job.lacked = true;
        }
    }
}
