//! The rows of a replica.
ghost use Rattle.std.specs.Prelude.{◌≡◌, refl};
ghost use Rattle.std.proofs.Common.{◌∙◌};
ghost use Rattle.erm_replica_rows.specs.Seeing.{fixed_face};

use erm_model::{Oid, Row, RowRead, RowStop};

/// The rows of a replica at its safe stamp. As a transaction over rows they are read as they are, and nothing is refused.
#[derive(Drop)]
pub struct ReplicaRows<'a> {
    /// The rows, one for each object that there may be.
    pub rows: &'a [Row],
}

impl<'a> RowRead for ReplicaRows<'a> {
    ghost face = { fixed_face (λ s. s.rows.now) };

    fn read(&mut self, oid: Oid) -> Result<Row, RowStop> {
        Ok(self.rows[oid as usize])
    }

    ghost goes_on = { λ s t u first second. second ∙ first };

    ghost stands = { λ s. refl };
}
