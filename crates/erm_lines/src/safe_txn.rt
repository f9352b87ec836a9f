//! A safe snapshot of a session as a transaction that reads.
ghost use Rattle.std.proofs.Common.{◌∙◌};
ghost use Rattle.std.specs.Prelude.{◌≡◌, refl};
ghost use Rattle.erm_lines.specs.Looks.{safe_face};

use erm_model::{Oid, Row, RowRead, RowStop, Seat};
use erm_node::SoundRows;
use erm_world::SafeWorld;

/// A world and the seat of one of its sessions, which has a safe snapshot.
#[derive(Drop)]
pub struct SafeTxn<'a, W> {
    pub world: &'a mut W,
    pub seat: Seat,
}

impl<'a, W: SafeWorld> RowRead for SafeTxn<'a, W> {
    ghost face = { safe_face W.law (λ s. W.view s.world.now) (λ s. s.seat) (λ s. W.stands s.world.now) (λ s t. t.world.ghost_name ≡ s.world.ghost_name) };

    fn read(&mut self, oid: Oid) -> Result<Row, RowStop> {
        erm_maps::snapshots_find_rows::<SoundRows>();
        Ok(self.world.safe_read(self.seat, oid))
    }

    ghost goes_on = { λ s t u first second. (second.0 ∙ first.0, second.1 ∙ first.1, λ standing. second.2 (first.2 standing), second.3 ∙ first.3) };

    ghost stands = { λ s. (refl, refl, λ standing. standing, refl) };
}
