//! A session of a world as a transaction over rows.
ghost use Rattle.std.proofs.Common.{◌∙◌};
ghost use Rattle.std.specs.Prelude.{◌≡◌, refl};
ghost use Rattle.erm_world.specs.Face.{world_face};
ghost use Rattle.erm_world.specs.Onward.{goes_itself, goes_then};

use crate::RowWorld;
use erm_model::{Oid, Row, RowRead, RowStop, RowTxn, Seat};

/// A world and the seat of one of its sessions: the session's transaction over rows.
#[derive(Drop)]
pub struct WorldTxn<'a, W> {
    pub world: &'a mut W,
    pub seat: Seat,
}

impl<'a, W: RowWorld> RowRead for WorldTxn<'a, W> {
    ghost face = { world_face W.law (λ s. W.view s.world.now) (λ s. s.seat) (λ s. W.stands s.world.now) (λ s t. t.world.ghost_name ≡ s.world.ghost_name) };

    fn read(&mut self, oid: Oid) -> Result<Row, RowStop> {
        self.world.read(self.seat, oid)
    }

    ghost goes_on = { λ s t u first second. (second.0 ∙ first.0, second.1 ∙ first.1, λ standing. second.2 (first.2 standing), goes_then (W.view s.world.now) (W.view t.world.now) (W.view u.world.now) s.seat t.seat first.1 first.3 second.3) };

    ghost stands = { λ s. (refl, refl, λ standing. standing, goes_itself (W.view s.world.now) s.seat) };
}

impl<'a, W: RowWorld> RowTxn for WorldTxn<'a, W> {
    fn claim(&mut self, oid: Oid) -> Result<(), RowStop> {
        self.world.claim(self.seat, oid)
    }

    fn write(&mut self, oid: Oid, row: &Row) -> Result<(), RowStop> {
        self.world.write(self.seat, oid, row)
    }

    fn fresh(&mut self) -> Result<Oid, RowStop> {
        self.world.fresh(self.seat)
    }
}
