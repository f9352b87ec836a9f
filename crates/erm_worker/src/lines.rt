//! The lines of a session, one after another.
ghost use Rattle.std.specs.Prelude.{◌≡◌, ◌<◌, ◌≤◌, [], ◌∷◌, ◌++◌, IfErr, None, OnOk, length, vec_capacity, vec_len};
ghost use Rattle.erm_model.specs.Member.{◌∈◌};
ghost use Rattle.erm_model.specs.RowTransaction.{SameLaw};
ghost use Rattle.erm_node.specs.Sound.{sound_law};
ghost use Rattle.erm_script.specs.declared.script.ScriptLine.{ScriptLine};
ghost use Rattle.erm_world.specs.Face.{Grows};
ghost use Rattle.erm_world.specs.World.{View};
ghost use Rattle.erm_beside.specs.Laws.{GoesOnward};
ghost use Rattle.erm_worker.specs.Work.{IsReady, MayBeAsked, RanLines, RanShort};

use crate::ends::give_up;
use crate::{Turns, run_line};
use erm_beside::SafeSession;
use erm_report::Answer;
use erm_script::ScriptLine;
use std::alloc::{AllocError, Global};
use std::sync::Wait;

/// Runs the lines of a session that has committed nothing, in order, and puts their answers into `answers`, which is empty and has room for
/// them. Where the worker is told to stop, it answers no more, and leaves the session without an active transaction. `Err` where memory ran
/// out, in the line behind those answered.
pub fn run_lines<S: SafeSession, T: Turns, R: Wait>(
    rt: &R,
    alloc: Global,
    session: &mut S,
    shared: &S::Shared,
    turns: &mut T,
    lines: &[ScriptLine],
    answers: &mut Vec<Answer>,
) -> Result<(), AllocError>
    requires law { SameLaw S.law sound_law }
    requires stands { S.stands shared.now session.old }
    requires seat { (l : ScriptLine) → l ∈ lines.now → l.session ≡ S.seat session.old }
    requires may { (l : ScriptLine) → l ∈ lines.now → MayBeAsked l.command }
    requires ready { IsReady (S.own session.old) (S.seat session.old) None }
    requires none { answers.old.items ≡ [] }
    requires room { length lines.now ≤ vec_capacity answers.old }
    ensures stands { S.stands shared.now session.new }
    ensures onward { GoesOnward (S.seat session.old) (S.seat session.new) (S.ends session.old) (S.ends session.new) }
    ensures most { length answers.new.items ≤ length lines.now }
    ensures ran { OnOk result ((f : View) → S.ends session.new f → RanLines f (S.seat session.old) lines.now answers.new.items (S.own session.old) (S.own session.new)) }
    ensures told { OnOk result (length answers.new.items < length lines.now → T.told turns.new) }
    ensures short { IfErr result (λ _. (f : View) → S.ends session.new f → RanShort Grows f (S.seat session.old) lines.now answers.new.items (S.own session.old) (S.own session.new)) }
{
    let mut receipt = None;
    for line in lines {
        if !turns.goes_on() {
            give_up(session, shared);
            return Ok(());
        }
        let Some(answer) = run_line(rt, alloc, session, shared, turns, line, &mut receipt)? else {
            return Ok(());
        };
        add(answers, answer);
    }
    Ok(())
}

// Adds an answer, for which there is room.
fn add(answers: &mut Vec<Answer>, answer: Answer)
    requires room { vec_len answers.old < vec_capacity answers.old }
    ensures added { answers.new.items ≡ answers.old.items ++ answer ∷ [] }
    ensures capacity { vec_capacity answers.old ≤ vec_capacity answers.new }
{
    let _ = answers.push(answer);
}
