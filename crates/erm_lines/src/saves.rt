//! Savepoints of a session's transaction.
ghost use Rattle.std.specs.Prelude.{◌≡◌, IfOk, List};
ghost use Rattle.erm_model.specs.declared.outcome.Phase.TheVariants.{Active};
ghost use Rattle.erm_model.specs.Run.{Step};
ghost use Rattle.erm_maps.specs.Runs.{IsRunOf, kept_at};
ghost use Rattle.erm_world.specs.World.{IsSession, phase_at};
ghost use Rattle.erm_lines.specs.Whole.{WasAnswered};

use erm_model::Seat;
use erm_report::Answer;
use erm_script::Command;
use erm_world::{NoSave, RowWorld, SaveStop};
use std::alloc::AllocError;

/// Gives a transaction one more savepoint. `Err` where memory ran out.
pub fn save<W: RowWorld>(world: &mut W, seat: Seat) -> Result<Answer, AllocError>
    requires stands { W.stands world.old }
    requires session { IsSession (W.view world.old) seat }
    requires active { phase_at (W.view world.old) seat ≡ Active }
    ensures stands { W.stands world.new }
    ensures answered { IfOk result (λ a. WasAnswered (W.view world.old) seat Command.Save a (W.view world.new)) }
{
    match world.save(seat) {
        Ok(held) => Ok(Answer::Saved { held }),
        Err(SaveStop::SavesFull { .. }) => Ok(Answer::SavesFull),
        Err(SaveStop::Memory) => Err(AllocError),
    }
}

/// Goes back to a savepoint of a transaction, which is the run of some operations, where it holds one of this number.
pub fn back<W: RowWorld>(world: &mut W, seat: Seat, n: u32) -> Answer
    requires stands { W.stands world.old }
    requires session { IsSession (W.view world.old) seat }
    requires active { phase_at (W.view world.old) seat ≡ Active }
    requires ran { (steps : List Step) × IsRunOf (kept_at (W.view world.old) seat) steps }
    ensures stands { W.stands world.new }
    ensures answered { WasAnswered (W.view world.old) seat (Command.Back n) result (W.view world.new) }
{
    match world.back(seat, n) {
        Ok(()) => Answer::Back { n },
        Err(NoSave { held }) => Answer::NoSave { held },
    }
}
