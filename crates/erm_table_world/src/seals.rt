//! The seal of a transaction, whether it is on the disk, and its abort.
ghost use Rattle.std.specs.Prelude.{◌≡◌, ◌≤◌, ◌↔◌, IfErr, IsOk};
ghost use Rattle.erm_model.specs.declared.outcome.Phase.TheVariants.{Active};
ghost use Rattle.erm_table_world.specs.Saves.{KeepsSaves};
ghost use Rattle.erm_table_world.specs.Stands.{Stands, table_view};
ghost use Rattle.erm_world.specs.Calls.{DidAbort, DidSeal};
ghost use Rattle.erm_world.specs.Laws.{IsLawfulWork};
ghost use Rattle.erm_world.specs.World.{IsSession, phase_at, work_at};

use crate::TableWorld;
use erm_model::{Receipt, RowLaw, Seat, Stamp};
use erm_world::NotFlushed;

impl<L: RowLaw> TableWorld<L> {
    /// Seals the transaction: its commit stamp, the place of the log, in words, where its block begins. The transaction keeps the
    /// law of rows.
    pub fn seal(&mut self, seat: Seat) -> Stamp
        requires stands { Stands L.law self.old }
        requires session { IsSession (table_view self.old) seat }
        requires active { phase_at (table_view self.old) seat ≡ Active }
        requires lawful { IsLawfulWork L.law (work_at (table_view self.old) seat) }
        ensures stands { Stands L.law self.new }
        ensures saves { KeepsSaves self.old seat self.new }
        ensures sealed { DidSeal (table_view self.old) seat result (table_view self.new) }
    {
        self.sessions[seat as usize - 1].seal(&self.table, &mut self.pass)
    }

    /// Whether a commit is on the disk: all words of the log below the receipt's end are synced.
    pub fn durable(&mut self, seat: Seat, receipt: &Receipt) -> Result<(), NotFlushed>
        requires stands { Stands L.law self.old }
        requires session { IsSession (table_view self.old) seat }
        ensures stands { Stands L.law self.new }
        ensures saves { KeepsSaves self.old seat self.new }
        ensures same { table_view self.new ≡ table_view self.old }
        ensures ok { IsOk result ↔ (receipt.now.end ≤ (table_view self.old).flushed) }
        ensures err { IfErr result (λ stop. stop.flushed ≡ (table_view self.old).flushed) }
    {
        self.sessions[seat as usize - 1].durable(&self.table, &mut self.pass, receipt)
    }

    /// Ends the transaction: nothing that it wrote stays.
    pub fn abort(&mut self, seat: Seat)
        requires stands { Stands L.law self.old }
        requires session { IsSession (table_view self.old) seat }
        requires active { phase_at (table_view self.old) seat ≡ Active }
        ensures stands { Stands L.law self.new }
        ensures saves { KeepsSaves self.old seat self.new }
        ensures aborted { DidAbort (table_view self.old) seat (table_view self.new) }
    {
        self.sessions[seat as usize - 1].abort(&self.table, &mut self.pass)
    }
}
