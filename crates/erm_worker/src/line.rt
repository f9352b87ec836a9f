//! One line of a session, run to its end.
ghost use Rattle.std.specs.Prelude.{◌≡◌, IfErr, IfNone, IfOk, IfSome, None};
ghost use Rattle.erm_model.specs.declared.outcome.Phase.TheVariants.{Idle};
ghost use Rattle.erm_model.specs.RowTransaction.{SameLaw};
ghost use Rattle.erm_node.specs.Sound.{sound_law};
ghost use Rattle.erm_good_report.specs.Phases.{HasNoSnapshot, refusal_of};
ghost use Rattle.erm_world.specs.Face.{Grows};
ghost use Rattle.erm_world.specs.World.{View, phase_at};
ghost use Rattle.erm_beside.specs.Laws.{GoesOnward};
ghost use Rattle.erm_lines_at_once.specs.Answers.{WasAnsweredBeside};
ghost use Rattle.erm_worker.specs.Work.{IsReady, MayBeAsked, RanLine, WasAsked};

use crate::Turns;
use crate::ends::{commit, durable, give_up, settle};
use crate::operations::operate;
use crate::snapshots::{begin_snapshot, watch};
use erm_beside::{SafeSession, SharedSession};
use erm_lines::refusal_of;
use erm_lines_at_once::{abort, back, has_snapshot, save, seal};
use erm_model::Receipt;
use erm_outside::Place;
use erm_report::Answer;
use erm_script::{Command, ScriptLine};
use erm_world::BeginStop;
use std::alloc::{AllocError, Global};
use std::sync::Wait;

// Begins a transaction. Where memory runs out the session is as it was.
fn begin<S: SharedSession>(session: &mut S, shared: &S::Shared) -> Result<Answer, AllocError>
    requires stands { S.stands shared.now session.old }
    requires idle { phase_at (S.own session.old) (S.seat session.old) ≡ Idle }
    ensures stands { S.stands shared.now session.new }
    ensures onward { GoesOnward (S.seat session.old) (S.seat session.new) (S.ends session.old) (S.ends session.new) }
    ensures answered { IfOk result (λ a. (f : View) → WasAnsweredBeside f (S.seat session.old) Command.Begin a (S.own session.old) (S.own session.new)) }
    ensures same { IfErr result (λ _. (S.own session.new).session (S.seat session.old) ≡ (S.own session.old).session (S.seat session.old)) }
{
    match session.begin(shared) {
        Ok(stamp) => Ok(Answer::Began(stamp)),
        Err(BeginStop::LogEnd { tail }) => Ok(Answer::LogEnd { tail }),
        Err(BeginStop::NumbersEnd) => Ok(Answer::NumbersEnd),
        Err(BeginStop::Memory) => Err(AllocError),
    }
}

// Answers a command that the phase of a session without a snapshot allows, or `None` where the worker was told to stop while it waited.
fn run<S: SafeSession, T: Turns, R: Wait>(
    rt: &R,
    alloc: Global,
    session: &mut S,
    shared: &S::Shared,
    turns: &mut T,
    command: &Command,
    receipt: &mut Option<Receipt>,
) -> Result<Option<Answer>, AllocError>
    requires law { SameLaw S.law sound_law }
    requires stands { S.stands shared.now session.old }
    requires plain { HasNoSnapshot (phase_at (S.own session.old) (S.seat session.old)) }
    requires allowed { refusal_of (phase_at (S.own session.old) (S.seat session.old)) command.now ≡ None }
    requires may { MayBeAsked command.now }
    requires ready { IsReady (S.own session.old) (S.seat session.old) receipt.old }
    ensures stands { S.stands shared.now session.new }
    ensures onward { GoesOnward (S.seat session.old) (S.seat session.new) (S.ends session.old) (S.ends session.new) }
    ensures asked { IfOk result (λ answered. (f : View) → S.ends session.new f → WasAsked f (S.seat session.old) command.now answered (S.own session.old) (S.own session.new)) }
    ensures ready { IfOk result (λ answered. IfSome answered (λ _. IsReady (S.own session.new) (S.seat session.old) receipt.new)) }
    ensures told { IfOk result (λ answered. IfNone answered (T.told turns.new)) }
    ensures grown { IfErr result (λ _. Grows ((S.own session.old).session (S.seat session.old)) ((S.own session.new).session (S.seat session.old))) }
{
    erm_maps::begun_transactions_are_runs();
    match command {
        Command::Begin => {
            turns.pass(Place::Begin);
            Ok(Some(begin(session, shared)?))
        }
        Command::Safe => {
            turns.pass(Place::Begin);
            begin_snapshot(rt, session, shared, turns)
        }
        Command::Save => Ok(Some(save(session, shared)?)),
        Command::Back { n } => Ok(Some(back(session, shared, *n))),
        Command::Seal => {
            let answer = seal(session, shared);
            turns.pass(Place::Sealed);
            Ok(Some(answer))
        }
        Command::Settle => Ok(settle(rt, session, shared, turns, receipt)),
        Command::Commit => Ok(commit(rt, session, shared, turns, receipt)),
        Command::Abort => Ok(Some(abort(session, shared))),
        Command::Durable => Ok(durable(rt, session, shared, turns, receipt.as_ref())),
        _ => operate(rt, alloc, session, shared, turns, command),
    }
}

/// Runs one line of a session: its answer, or `None` where the worker was told to stop while it waited. It keeps the receipt of the
/// session's last commit, which is `None` where the session has committed nothing. `Err` where memory ran out: then its transaction in progress
/// may have gone on.
pub fn run_line<S: SafeSession, T: Turns, R: Wait>(
    rt: &R,
    alloc: Global,
    session: &mut S,
    shared: &S::Shared,
    turns: &mut T,
    line: &ScriptLine,
    receipt: &mut Option<Receipt>,
) -> Result<Option<Answer>, AllocError>
    requires law { SameLaw S.law sound_law }
    requires stands { S.stands shared.now session.old }
    requires seat { line.now.session ≡ S.seat session.old }
    requires may { MayBeAsked line.now.command }
    requires ready { IsReady (S.own session.old) (S.seat session.old) receipt.old }
    ensures stands { S.stands shared.now session.new }
    ensures onward { GoesOnward (S.seat session.old) (S.seat session.new) (S.ends session.old) (S.ends session.new) }
    ensures ran { IfOk result (λ answered. (f : View) → S.ends session.new f → RanLine f line.now answered (S.own session.old) (S.own session.new)) }
    ensures ready { IfOk result (λ answered. IfSome answered (λ _. IsReady (S.own session.new) (S.seat session.old) receipt.new)) }
    ensures told { IfOk result (λ answered. IfNone answered (T.told turns.new)) }
    ensures grown { IfErr result (λ _. Grows ((S.own session.old).session (S.seat session.old)) ((S.own session.new).session (S.seat session.old))) }
{
    let phase = session.phase(shared);
    if let Some(refusal) = refusal_of(phase, &line.command) {
        return Ok(Some(refusal));
    }
    if has_snapshot(phase) {
        return watch(
            rt,
            alloc,
            session,
            shared,
            turns,
            &line.command,
            receipt.as_ref(),
        );
    }
    let Some(answer) = run(rt, alloc, session, shared, turns, &line.command, receipt)? else {
        give_up(session, shared);
        return Ok(None);
    };
    Ok(Some(answer))
}
