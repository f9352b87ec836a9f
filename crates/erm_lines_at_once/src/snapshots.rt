//! Begin, look and end of a snapshot of a session that shares its world with others. A wait is no answer: the snapshot is asked again.
ghost use Rattle.std.specs.Prelude.{◌≡◌, IfOk};
ghost use Rattle.erm_model.specs.declared.outcome.Phase.TheVariants.{Idle, Pending};
ghost use Rattle.erm_world.specs.Safe.{HasSnapshot};
ghost use Rattle.erm_world.specs.World.{View, phase_at};
ghost use Rattle.erm_lines.specs.Whole.{is_snapshot};
ghost use Rattle.erm_beside.specs.Laws.{GoesOnward};
ghost use Rattle.erm_lines_at_once.specs.Answers.{TriedSafe, TriedSnapshot, WasWatchedBeside};

use erm_beside::SafeSession;
use erm_model::Phase;
use erm_report::Answer;
use erm_script::Command;
use erm_world::{BeginStop, SafeStop};
use std::alloc::AllocError;

/// Whether a session in this phase has a snapshot.
pub fn has_snapshot(phase: Phase) -> bool
    ensures { result ≡ is_snapshot phase }
{
    match phase {
        Phase::Idle => false,
        Phase::Active => false,
        Phase::Sealed => false,
        Phase::Pending => true,
        Phase::Safe => true,
    }
}

/// Asks whether the session's snapshot is safe: an answer, or `None` where it isn't known yet.
pub fn try_safe<S: SafeSession>(session: &mut S, shared: &S::Shared) -> Option<Answer>
    requires stands { S.stands shared.now session.old }
    requires pending { phase_at (S.own session.old) (S.seat session.old) ≡ Pending }
    ensures stands { S.stands shared.now session.new }
    ensures onward { GoesOnward (S.seat session.old) (S.seat session.new) (S.ends session.old) (S.ends session.new) }
    ensures tried { (f : View) → S.ends session.new f → TriedSafe f (S.seat session.old) result (S.own session.old) (S.own session.new) }
{
    let begin = session.snapshot_begin(shared);
    match session.safe(shared) {
        Ok(()) => Some(Answer::Safe(begin)),
        Err(SafeStop::NotYet { .. }) => None,
        Err(SafeStop::Unsafe { seat, stamp }) => Some(Answer::Unsafe { seat, stamp }),
    }
}

/// Begins a snapshot, and asks whether it is safe: an answer, or `None` where it isn't known yet, and the snapshot is pending.
pub fn begin_snapshot<S: SafeSession>(
    session: &mut S,
    shared: &S::Shared,
) -> Result<Option<Answer>, AllocError>
    requires stands { S.stands shared.now session.old }
    requires idle { phase_at (S.own session.old) (S.seat session.old) ≡ Idle }
    ensures stands { S.stands shared.now session.new }
    ensures onward { GoesOnward (S.seat session.old) (S.seat session.new) (S.ends session.old) (S.ends session.new) }
    ensures tried { IfOk result (λ tried. (f : View) → S.ends session.new f → TriedSnapshot f (S.seat session.old) tried (S.own session.old) (S.own session.new)) }
{
    match session.begin_safe(shared) {
        Ok(_) => Ok(try_safe(session, shared)),
        Err(BeginStop::LogEnd { tail }) => Ok(Some(Answer::LogEnd { tail })),
        Err(BeginStop::NumbersEnd) => Ok(Some(Answer::NumbersEnd)),
        Err(BeginStop::Memory) => Err(AllocError),
    }
}

/// Ends the session's snapshot, which is safe.
pub fn end_snapshot<S: SafeSession>(session: &mut S, shared: &S::Shared) -> Answer
    requires stands { S.stands shared.now session.old }
    requires snapshot { HasSnapshot (S.own session.old) (S.seat session.old) }
    ensures stands { S.stands shared.now session.new }
    ensures onward { GoesOnward (S.seat session.old) (S.seat session.new) (S.ends session.old) (S.ends session.new) }
    ensures answered { (f : View) → WasWatchedBeside f (S.seat session.old) Command.Commit result (S.own session.old) (S.own session.new) }
{
    session.end_safe(shared);
    Answer::Ended
}

/// Gives the session's snapshot up.
pub fn give_up_snapshot<S: SafeSession>(session: &mut S, shared: &S::Shared) -> Answer
    requires stands { S.stands shared.now session.old }
    requires snapshot { HasSnapshot (S.own session.old) (S.seat session.old) }
    ensures stands { S.stands shared.now session.new }
    ensures onward { GoesOnward (S.seat session.old) (S.seat session.new) (S.ends session.old) (S.ends session.new) }
    ensures answered { (f : View) → WasWatchedBeside f (S.seat session.old) Command.Abort result (S.own session.old) (S.own session.new) }
{
    session.end_safe(shared);
    Answer::Aborted
}
