//! A read.
ghost use Rattle.std.specs.Prelude.{◌≡◌, ◌≢◌, ◌<◌, IfErr, IfOk};
ghost use Rattle.erm_model.specs.declared.limits.TheConstants.{OID_LIMIT};
ghost use Rattle.erm_model.specs.declared.outcome.Phase.TheVariants.{Active};
ghost use Rattle.erm_model.specs.declared.row_stop.RowStop.TheVariants.{Memory};
ghost use Rattle.erm_table_world.specs.Saves.{KeepsSaves};
ghost use Rattle.erm_table_world.specs.Stands.{Stands, table_view};
ghost use Rattle.erm_world.specs.Calls.{DidNotRead, DidRead};
ghost use Rattle.erm_world.specs.World.{IsSession, phase_at};

use crate::TableWorld;
use erm_model::{Oid, Row, RowLaw, RowStop, Seat};

impl<L: RowLaw> TableWorld<L> {
    /// The row of an object, below 2^14, as the transaction sees it: its own where it is claimed, else the newest below its begin stamp,
    /// which then counts as read. It never answers `Memory`.
    pub fn read(&mut self, seat: Seat, oid: Oid) -> Result<Row, RowStop>
        requires stands { Stands L.law self.old }
        requires session { IsSession (table_view self.old) seat }
        requires active { phase_at (table_view self.old) seat ≡ Active }
        requires object { oid < OID_LIMIT }
        ensures stands { Stands L.law self.new }
        ensures saves { KeepsSaves self.old seat self.new }
        ensures ok { IfOk result (λ row. DidRead (table_view self.old) seat oid row (table_view self.new)) }
        ensures err { IfErr result (λ stop. DidNotRead (table_view self.old) seat oid stop (table_view self.new)) }
        ensures memory { IfErr result (λ stop. stop ≢ Memory) }
    {
        self.sessions[seat as usize - 1].read(&self.table, &mut self.pass, oid)
    }
}
