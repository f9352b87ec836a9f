//! New objects.
ghost use Rattle.std.specs.Prelude.{◌≡◌, ◌<◌, ℕ, IfErr, IfOk};
ghost use Rattle.erm_model.specs.declared.limits.TheConstants.{OID_LIMIT};
ghost use Rattle.erm_model.specs.declared.outcome.Phase.TheVariants.{Active};
ghost use Rattle.erm_model.specs.declared.row_stop.RowStop.TheVariants.{OidsFull};
ghost use Rattle.erm_core.specs.Cores.{core_of};
ghost use Rattle.erm_lists.specs.Stands.{Stands, lists_view};
ghost use Rattle.erm_world.specs.Calls.{DidMake, DidNotMake};
ghost use Rattle.erm_world.specs.World.{IsSession, phase_at};

use crate::Lists;
use crate::steps::found;
use erm_core::Need;
use erm_machine::{Counter, Kind, OBJECT_LIMIT};
use erm_model::{Oid, RowLaw, RowStop, Seat};

impl<L: RowLaw> Lists<L> {
    /// A new object, which nobody else gets. It is refused where memory runs out, and where each object that may be made was; the
    /// view stays then.
    pub fn fresh(&mut self, seat: Seat) -> Result<Oid, RowStop>
        requires stands { Stands L.law self.old }
        requires session { IsSession (lists_view self.old) seat }
        requires active { phase_at (lists_view self.old) seat ≡ Active }
        ensures stands { Stands L.law self.new }
        ensures object { IfOk result (λ oid. oid < OID_LIMIT) }
        ensures ok { IfOk result (λ oid. DidMake (lists_view self.old) seat oid (lists_view self.new)) }
        ensures err { IfErr result (λ stop. DidNotMake (lists_view self.old) seat stop (lists_view self.new)) }
        ensures drawn { IfErr result (λ stop. (drawn : ℕ) → stop ≡ OidsFull drawn → drawn ≡ (core_of self.old.state).shared.objects_drawn) }
    {
        erm_core::rooms_serve();
        erm_core::rooms_last();
        erm_core_view::drawn_objects_are_made();
        erm_core_view::steps_show_what_they_do();
        let counter = Counter::Objects;
        if !self.has_room(seat, Need::Make) {
            return Err(RowStop::Memory);
        }
        let drawn = found(self.go(seat, Kind::LoadCounter { counter }));
        if drawn >= OBJECT_LIMIT as u64 {
            return Err(RowStop::OidsFull { drawn });
        }
        self.take(seat, Kind::AddCounter { counter });
        Ok(drawn as Oid)
    }
}
