//! One line of a session, unless its client is told to stop before it; and its end.
ghost use Rattle.std.specs.Prelude.{◌≡◌, IfErr, IfNone, IfOk, IfSome, None};
ghost use Rattle.erm_beside.specs.Laws.{GoesOnward};
ghost use Rattle.erm_model.specs.declared.outcome.Phase.TheVariants.{Active, Sealed};
ghost use Rattle.erm_model.specs.RowTransaction.{SameLaw};
ghost use Rattle.erm_node.specs.Sound.{sound_law};
ghost use Rattle.erm_threads.specs.Work.{WasEnded};
ghost use Rattle.erm_worker.specs.Work.{GaveUp, IsReady, MayBeAsked, RanLine};
ghost use Rattle.erm_world.specs.Face.{Grows};
ghost use Rattle.erm_world.specs.World.{View, phase_at};

use erm_beside::{SafeSession, SharedSession};
use erm_model::{Phase, Receipt};
use erm_report::Answer;
use erm_script::ScriptLine;
use erm_worker::{Turns, close_session, run_line};
use std::alloc::{AllocError, Global};
use std::sync::Wait;

/// Gives the transaction of a session up where it is active.
pub fn give_up<S: SharedSession>(session: &mut S, shared: &S::Shared)
    requires stands { S.stands shared.now session.old }
    ensures stands { S.stands shared.now session.new }
    ensures onward { GoesOnward (S.seat session.old) (S.seat session.new) (S.ends session.old) (S.ends session.new) }
    ensures gave { GaveUp (phase_at (S.own session.old) (S.seat session.old)) (S.seat session.old) (S.own session.old) (S.own session.new) }
    ensures rests { phase_at (S.own session.new) (S.seat session.old) ≡ Active → ⊥ }
{
    if let Phase::Active = session.phase(shared) {
        session.abort(shared);
    }
}

/// Runs a line as the session's worker does: its answer, or `None` where the client was told to stop, before it or while it waited. `Err` where
/// memory ran out: then its transaction in progress may have gone on.
pub fn run_next<S: SafeSession, T: Turns, R: Wait>(
    rt: &R,
    alloc: Global,
    session: &mut S,
    shared: &S::Shared,
    turns: &mut T,
    line: &ScriptLine,
    receipt: &mut Option<Receipt>,
) -> Result<Option<Answer>, AllocError>
    requires law { SameLaw S.law sound_law }
    requires stands { S.stands shared.now session.old }
    requires seat { line.now.session ≡ S.seat session.old }
    requires may { MayBeAsked line.now.command }
    requires ready { IsReady (S.own session.old) (S.seat session.old) receipt.old }
    ensures stands { S.stands shared.now session.new }
    ensures onward { GoesOnward (S.seat session.old) (S.seat session.new) (S.ends session.old) (S.ends session.new) }
    ensures ran { IfOk result (λ answered. (f : View) → S.ends session.new f → RanLine f line.now answered (S.own session.old) (S.own session.new)) }
    ensures ready { IfOk result (λ answered. IfSome answered (λ _. IsReady (S.own session.new) (S.seat session.old) receipt.new)) }
    ensures told { IfOk result (λ answered. IfNone answered (T.told turns.new)) }
    ensures grown { IfErr result (λ _. Grows ((S.own session.old).session (S.seat session.old)) ((S.own session.new).session (S.seat session.old))) }
{
    if !turns.goes_on() {
        give_up(session, shared);
        return Ok(None);
    }
    run_line(rt, alloc, session, shared, turns, line, receipt)
}

/// Closes a session behind its last line where it has a transaction: it is aborted, or decided where it is sealed. So is one with a snapshot, which is
/// ended. `None` where it had none, or the client was told to stop while it waited.
pub fn end<S: SafeSession, T: Turns, R: Wait>(
    rt: &R,
    session: &mut S,
    shared: &S::Shared,
    turns: &mut T,
) -> Option<Answer>
    requires stands { S.stands shared.now session.old }
    ensures stands { S.stands shared.now session.new }
    ensures onward { GoesOnward (S.seat session.old) (S.seat session.new) (S.ends session.old) (S.ends session.new) }
    ensures ended { WasEnded (phase_at (S.own session.old) (S.seat session.old)) (S.seat session.old) result (S.own session.old) (S.own session.new) }
    ensures rests { phase_at (S.own session.new) (S.seat session.old) ≡ Active → ⊥ }
    ensures waits { result ≡ None → phase_at (S.own session.new) (S.seat session.old) ≡ Sealed → T.told turns.new }
{
    match session.phase(shared) {
        Phase::Idle => None,
        _ => close_session(rt, session, shared, turns),
    }
}
