//! A safe snapshot of a session beside others as a transaction that reads.
ghost use Rattle.std.proofs.Common.{◌∙◌};
ghost use Rattle.std.specs.Prelude.{◌≡◌, refl};
ghost use Rattle.erm_beside.specs.Onward.{onward_itself, onward_then, passes_itself, passes_then};
ghost use Rattle.erm_beside.specs.SafeFace.{safe_beside_face};

use crate::{SafeSession, SharedSession};
use erm_model::{Oid, Row, RowRead, RowStop};

/// A session, which has a safe snapshot, and what it shares with others: in each world in which all may end, what is read are the newest rows
/// below its begin stamp. No read is refused.
#[derive(Drop)]
pub struct SafeTxn<'a, S: SharedSession> {
    pub shared: &'a S::Shared,
    pub session: &'a mut S,
}

impl<'a, S: SafeSession> RowRead for SafeTxn<'a, S> {
    ghost face = { safe_beside_face S.law (λ s. S.own s.session.now) (λ s. S.seat s.session.now) (λ s. S.stands s.shared.now s.session.now) (λ s f. S.ends s.session.now f) (λ s t. (t.session.ghost_name ≡ s.session.ghost_name) × (t.shared ≡ s.shared)) };

    fn read(&mut self, oid: Oid) -> Result<Row, RowStop> {
        Ok(self.session.safe_read(self.shared, oid))
    }

    ghost goes_on = { λ s t u first second. ((second.0.0 ∙ first.0.0, second.0.1 ∙ first.0.1), λ standing. second.1 (first.1 standing), onward_then (S.seat s.session.now) (S.seat t.session.now) (S.seat u.session.now) (S.ends s.session.now) (S.ends t.session.now) (S.ends u.session.now) first.2 second.2, passes_then (S.seat s.session.now) (S.seat t.session.now) (S.own s.session.now) (S.own t.session.now) (S.own u.session.now) first.2.seat_is first.3 second.3) };

    ghost stands = { λ s. ((refl, refl), λ standing. standing, onward_itself (S.seat s.session.now) (S.ends s.session.now), passes_itself (S.seat s.session.now) (S.own s.session.now)) };
}
