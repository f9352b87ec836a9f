//! Savepoints, and the way back to them. None of the calls takes memory.
ghost use Rattle.std.specs.Prelude.{◌≡◌, ◌≢◌, IfErr, IfOk, OnOk};
ghost use Rattle.erm_model.specs.declared.outcome.Phase.TheVariants.{Active};
ghost use Rattle.erm_table_world.specs.Stands.{Stands, world_view};
ghost use Rattle.erm_world.specs.declared.stops.SaveStop.TheVariants.{Memory};
ghost use Rattle.erm_world.specs.Saves.{DidNotSave, DidSave, HasNoSave, WentBack};
ghost use Rattle.erm_world.specs.World.{IsSession, phase_at};

use crate::TableWorld;
use erm_model::{RowLaw, Seat};
use erm_world::{NoSave, SaveStop};

impl<L: RowLaw> TableWorld<L> {
    /// Saves the transaction's rows as they are, as one savepoint more: how many it holds then. It is refused where it holds 8. They end
    /// with the transaction. It never answers `Memory`.
    pub fn save(&mut self, seat: Seat) -> Result<u32, SaveStop>
        requires stands { Stands L.law self.old }
        requires session { IsSession (world_view self.old) seat }
        requires active { phase_at (world_view self.old) seat ≡ Active }
        ensures stands { Stands L.law self.new }
        ensures ok { IfOk result (λ held. DidSave (world_view self.old) seat held (world_view self.new)) }
        ensures err { IfErr result (λ stop. DidNotSave (world_view self.old) seat stop (world_view self.new)) }
        ensures memory { IfErr result (λ stop. stop ≢ Memory) }
    {
        self.sessions[seat as usize - 1].save()
    }

    /// Goes back to the savepoint of this number, from 1: each row claimed since is that of the version overwritten, and each one claimed
    /// before is as it was then. The savepoints made since are gone, and this one stays. No claim is given up, and what was read or made
    /// stays so.
    pub fn back(&mut self, seat: Seat, n: u32) -> Result<(), NoSave>
        requires stands { Stands L.law self.old }
        requires session { IsSession (world_view self.old) seat }
        requires active { phase_at (world_view self.old) seat ≡ Active }
        ensures stands { Stands L.law self.new }
        ensures ok { OnOk result (WentBack (world_view self.old) seat n (world_view self.new)) }
        ensures err { IfErr result (λ stop. HasNoSave (world_view self.old) seat n stop.held (world_view self.new)) }
    {
        self.sessions[seat as usize - 1].back(&self.table, &mut self.pass, n)
    }
}
