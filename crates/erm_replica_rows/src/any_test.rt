//! The test that all rows pass.
use erm_ckpt::RowTest;
use erm_model::{AnyRows, OID_LIMIT, Row, RowLaw};
use erm_recover::ReplaceTest;

/// The test that all rows pass: for rows that were tested before.
pub(crate) struct AnyTest;

impl RowLaw for AnyTest {
    ghost use Rattle.erm_model.specs.RowTransaction.{any_law};

    ghost law = { any_law };

    fn respects_rows() {
        AnyRows::respects_rows();
    }
}

impl RowTest for AnyTest {
    fn test(&self, rows: &[Row]) -> bool {
        rows.len() == OID_LIMIT as usize
    }
}

impl ReplaceTest for AnyTest {
    fn may_replace(&self, _before: &Row, _after: &Row) -> bool {
        true
    }
}
