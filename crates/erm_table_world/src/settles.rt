//! The settle of a transaction.
ghost use Rattle.std.specs.Prelude.{◌≡◌, IfErr, IfOk};
ghost use Rattle.erm_model.specs.declared.outcome.Phase.TheVariants.{Sealed};
ghost use Rattle.erm_table_world.specs.Saves.{KeepsSaves};
ghost use Rattle.erm_table_world.specs.Stands.{Stands, table_view};
ghost use Rattle.erm_table_world.specs.Waits.{wait_of};
ghost use Rattle.erm_world.specs.Calls.{DidNotSettle, DidSettle};
ghost use Rattle.erm_world.specs.World.{IsSession, phase_at};

use crate::TableWorld;
use erm_model::{Outcome, RowLaw, Seat};
use erm_world::Wait;

// For whom, or for what, a settle waits, as the world answers it.
fn wait_of(wait: erm_precommit::Wait) -> Wait
    ensures { result ≡ wait_of wait }
{
    match wait {
        erm_precommit::Wait::Ring { flushed } => Wait::Ring { flushed },
        erm_precommit::Wait::Seat { seat, seen } => Wait::Seat { seat, seen },
    }
}

impl<L: RowLaw> TableWorld<L> {
    /// Decides a sealed transaction by the Serial Safety Net, or says for what it waits.
    pub fn settle(&mut self, seat: Seat) -> Result<Outcome, Wait>
        requires stands { Stands L.law self.old }
        requires session { IsSession (table_view self.old) seat }
        requires sealed { phase_at (table_view self.old) seat ≡ Sealed }
        ensures stands { Stands L.law self.new }
        ensures saves { KeepsSaves self.old seat self.new }
        ensures ok { IfOk result (λ outcome. DidSettle (table_view self.old) seat outcome (table_view self.new)) }
        ensures err { IfErr result (λ stop. DidNotSettle (table_view self.old) seat stop (table_view self.new)) }
    {
        erm_record::stored_words_tell_the_row();
        match self.sessions[seat as usize - 1].settle(&self.table, &mut self.pass) {
            Ok(outcome) => Ok(outcome),
            Err(wait) => Err(wait_of(wait)),
        }
    }
}
