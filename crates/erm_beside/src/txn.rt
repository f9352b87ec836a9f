//! A session beside others as a transaction over rows.
ghost use Rattle.std.proofs.Common.{◌∙◌};
ghost use Rattle.std.specs.Prelude.{◌≡◌, refl};
ghost use Rattle.erm_world.specs.World.{View};
ghost use Rattle.erm_beside.specs.Face.{beside_face};
ghost use Rattle.erm_beside.specs.Onward.{beside_itself, beside_then, onward_itself, onward_then};

use crate::SharedSession;
use erm_model::{Oid, Row, RowRead, RowStop, RowTxn};

/// A session and what it shares with others: its transaction over rows.
#[derive(Drop)]
pub struct SharedTxn<'a, S: SharedSession> {
    pub shared: &'a S::Shared,
    pub session: &'a mut S,
}

impl<'a, S: SharedSession> RowRead for SharedTxn<'a, S> {
    ghost face = { beside_face S.law (λ s. S.own s.session.now) (λ s. S.seat s.session.now) (λ s. S.stands s.shared.now s.session.now) (λ s f. S.ends s.session.now f) (λ s t. (t.session.ghost_name ≡ s.session.ghost_name) × (t.shared ≡ s.shared)) };

    fn read(&mut self, oid: Oid) -> Result<Row, RowStop> {
        self.session.read(self.shared, oid)
    }

    ghost goes_on = { λ s t u first second. ((second.0.0 ∙ first.0.0, second.0.1 ∙ first.0.1), λ standing. second.1 (first.1 standing), onward_then (S.seat s.session.now) (S.seat t.session.now) (S.seat u.session.now) (S.ends s.session.now) (S.ends t.session.now) (S.ends u.session.now) first.2 second.2, beside_then (S.seat s.session.now) (S.seat t.session.now) (S.own s.session.now) (S.own t.session.now) (S.own u.session.now) first.2.seat_is first.3 second.3) };

    ghost stands = { λ s. ((refl, refl), λ standing. standing, onward_itself (S.seat s.session.now) (S.ends s.session.now), beside_itself (S.seat s.session.now) (S.own s.session.now)) };
}

impl<'a, S: SharedSession> RowTxn for SharedTxn<'a, S> {
    fn claim(&mut self, oid: Oid) -> Result<(), RowStop> {
        self.session.claim(self.shared, oid)
    }

    fn write(&mut self, oid: Oid, row: &Row) -> Result<(), RowStop> {
        self.session.write(self.shared, oid, row)
    }

    fn fresh(&mut self) -> Result<Oid, RowStop> {
        self.session.fresh(self.shared)
    }
}
