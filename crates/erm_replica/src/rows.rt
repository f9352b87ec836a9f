//! The test that all rows pass: a stream's reader looks at no tree.
use erm_ckpt::RowTest;
use erm_model::{AnyRows, OID_LIMIT, Row, RowLaw};

/// The test that all rows pass.
pub(crate) struct AllRows;

impl RowLaw for AllRows {
    ghost use Rattle.erm_model.specs.RowTransaction.{any_law};

    ghost law = { any_law };

    fn respects_rows() {
        AnyRows::respects_rows();
    }
}

impl RowTest for AllRows {
    fn test(&self, rows: &[Row]) -> bool {
        rows.len() == OID_LIMIT as usize
    }
}
