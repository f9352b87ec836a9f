//! The savepoints of a session's transaction, where the session shares its world with others. None waits for another session.
ghost use Rattle.std.specs.Prelude.{◌≡◌, IfErr, IfOk, List};
ghost use Rattle.erm_model.specs.declared.outcome.Phase.TheVariants.{Active};
ghost use Rattle.erm_model.specs.Run.{Step};
ghost use Rattle.erm_maps.specs.Runs.{IsRunOf, kept_at};
ghost use Rattle.erm_world.specs.World.{View, phase_at};
ghost use Rattle.erm_beside.specs.Laws.{GoesOnward};
ghost use Rattle.erm_lines_at_once.specs.Answers.{WasAnsweredBeside};

use erm_beside::SharedSession;
use erm_report::Answer;
use erm_script::Command;
use erm_world::SaveStop;
use std::alloc::AllocError;

/// Sets one more savepoint of a transaction. Where memory runs out the session is as it was.
pub fn save<S: SharedSession>(session: &mut S, shared: &S::Shared) -> Result<Answer, AllocError>
    requires stands { S.stands shared.now session.old }
    requires active { phase_at (S.own session.old) (S.seat session.old) ≡ Active }
    ensures stands { S.stands shared.now session.new }
    ensures onward { GoesOnward (S.seat session.old) (S.seat session.new) (S.ends session.old) (S.ends session.new) }
    ensures answered { IfOk result (λ a. (f : View) → WasAnsweredBeside f (S.seat session.old) Command.Save a (S.own session.old) (S.own session.new)) }
    ensures same { IfErr result (λ _. (S.own session.new).session (S.seat session.old) ≡ (S.own session.old).session (S.seat session.old)) }
{
    match session.save(shared) {
        Ok(held) => Ok(Answer::Saved { held }),
        Err(SaveStop::SavesFull { .. }) => Ok(Answer::SavesFull),
        Err(SaveStop::Memory) => Err(AllocError),
    }
}

/// Goes back to a savepoint of a transaction, which is the run of some operations. The savepoint stays, and those set after it are gone.
pub fn back<S: SharedSession>(session: &mut S, shared: &S::Shared, n: u32) -> Answer
    requires stands { S.stands shared.now session.old }
    requires active { phase_at (S.own session.old) (S.seat session.old) ≡ Active }
    requires ran { (steps : List Step) × IsRunOf (kept_at (S.own session.old) (S.seat session.old)) steps }
    ensures stands { S.stands shared.now session.new }
    ensures onward { GoesOnward (S.seat session.old) (S.seat session.new) (S.ends session.old) (S.ends session.new) }
    ensures answered { (f : View) → WasAnsweredBeside f (S.seat session.old) (Command.Back n) result (S.own session.old) (S.own session.new) }
{
    match session.back(shared, n) {
        Ok(()) => Answer::Back { n },
        Err(stop) => Answer::NoSave { held: stop.held },
    }
}
