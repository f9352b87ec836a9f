//! New objects.
ghost use Rattle.std.specs.Prelude.{◌≡◌, ◌≢◌, ◌<◌, IfErr, IfOk};
ghost use Rattle.erm_model.specs.declared.limits.TheConstants.{OID_LIMIT};
ghost use Rattle.erm_model.specs.declared.outcome.Phase.TheVariants.{Active};
ghost use Rattle.erm_model.specs.declared.row_stop.RowStop.TheVariants.{Memory};
ghost use Rattle.erm_table_world.specs.Saves.{KeepsSaves};
ghost use Rattle.erm_table_world.specs.Stands.{Stands, table_view};
ghost use Rattle.erm_world.specs.Calls.{DidMake, DidNotMake};
ghost use Rattle.erm_world.specs.World.{IsSession, phase_at};

use crate::TableWorld;
use erm_model::{Oid, RowLaw, RowStop, Seat};

impl<L: RowLaw> TableWorld<L> {
    /// A new object, which nobody else gets. It is refused where each object that may be made was; the view stays then.
    /// It never answers `Memory`.
    pub fn fresh(&mut self, seat: Seat) -> Result<Oid, RowStop>
        requires stands { Stands L.law self.old }
        requires session { IsSession (table_view self.old) seat }
        requires active { phase_at (table_view self.old) seat ≡ Active }
        ensures stands { Stands L.law self.new }
        ensures saves { KeepsSaves self.old seat self.new }
        ensures object { IfOk result (λ oid. oid < OID_LIMIT) }
        ensures ok { IfOk result (λ oid. DidMake (table_view self.old) seat oid (table_view self.new)) }
        ensures err { IfErr result (λ stop. DidNotMake (table_view self.old) seat stop (table_view self.new)) }
        ensures memory { IfErr result (λ stop. stop ≢ Memory) }
    {
        erm_core_view::drawn_objects_are_made();
        erm_core_view::steps_show_what_they_do();
        self.sessions[seat as usize - 1].fresh(&self.table, &mut self.pass)
    }
}
