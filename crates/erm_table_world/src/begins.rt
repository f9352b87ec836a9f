//! The begin of a transaction.
ghost use Rattle.std.specs.Prelude.{◌≡◌, ◌≢◌, IfErr, IfOk};
ghost use Rattle.erm_model.specs.declared.outcome.Phase.TheVariants.{Idle};
ghost use Rattle.erm_table_world.specs.Saves.{KeepsSaves};
ghost use Rattle.erm_table_world.specs.Stands.{Stands, table_view};
ghost use Rattle.erm_world.specs.Calls.{DidBegin, MayNotBegin};
ghost use Rattle.erm_world.specs.World.{IsSession, phase_at};
ghost use Rattle.erm_world.specs.declared.stops.BeginStop.TheVariants.{Memory};

use crate::TableWorld;
use erm_model::{RowLaw, Seat, Stamp};
use erm_world::BeginStop;

impl<L: RowLaw> TableWorld<L> {
    /// Begins a transaction: the begin stamp, which is the end of the log, in words. It is refused, in this order, where the session has
    /// had its last number, 2^32 - 1, and where the log's end is at or above 2^60; the view stays then. It never answers `Memory`.
    pub fn begin(&mut self, seat: Seat) -> Result<Stamp, BeginStop>
        requires stands { Stands L.law self.old }
        requires session { IsSession (table_view self.old) seat }
        requires idle { phase_at (table_view self.old) seat ≡ Idle }
        ensures stands { Stands L.law self.new }
        ensures saves { KeepsSaves self.old seat self.new }
        ensures ok { IfOk result (λ begin. DidBegin (table_view self.old) seat begin (table_view self.new)) }
        ensures err { IfErr result (λ stop. MayNotBegin (table_view self.old) seat stop (table_view self.new)) }
        ensures memory { IfErr result (λ stop. stop ≢ Memory) }
    {
        self.sessions[seat as usize - 1].begin(&self.table, &mut self.pass)
    }
}
