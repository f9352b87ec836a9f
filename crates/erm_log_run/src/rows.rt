//! The law of a world's rows.
use erm_model::RowLaw;
use erm_world::LogWorld;
use std::marker::PhantomData;

/// The law of the rows of a world's log.
pub struct RowsOf<W> {
    pub world: PhantomData<W>,
}

impl<W: LogWorld> RowLaw for RowsOf<W> {
    ghost law = { W.rows_law };

    fn respects_rows() {
        W::respects_rows();
    }
}
