//! One savepoint.
ghost use Rattle.std.specs.Prelude.{◌≡◌, ◌≤◌, [], length, IfOk};
ghost use Rattle.erm_model.specs.declared.limits.TheConstants.{WRITE_LIMIT};
ghost use Rattle.erm_savepoints.specs.Saves.{row_saved, row_set, rows_set};

use erm_model::{Row, WRITE_LIMIT};
use std::alloc::{AllocError, Global};
use std::marker::Model;

/// A savepoint: of each claim that there was, in order, the row that a write had set, if one had. There is room for all claims.
#[derive(Drop)]
pub(crate) struct Savepoint {
    rows: Vec<Option<Row>>,
}

impl Model for Savepoint {
    ghost use Rattle.std.specs.Prelude.{◌≤◌, ℕ, List, Option, vec_capacity};
    ghost use Rattle.erm_model.specs.declared.limits.TheConstants.{WRITE_LIMIT};

    ghost Value = { List (Option (List ℕ)) };

    ghost view = { λ s. s.rows.items };

    ghost invariant = { λ s. WRITE_LIMIT ≤ vec_capacity s.rows };
}

impl Savepoint {
    /// One of no claims.
    pub fn new(alloc: Global) -> Result<Savepoint, AllocError>
        ensures { IfOk result (λ point. point ≡ []) }
    {
        let rows = Vec::with_capacity(alloc, WRITE_LIMIT)?;
        Ok(Savepoint { rows })
    }

    /// It becomes one of claims that have these rows, which a write has set, or not.
    pub fn fill(&mut self, rows: &[Row], is_set: &[bool])
        requires few { length rows.now ≤ WRITE_LIMIT }
        requires as_many { length is_set.now ≡ length rows.now }
        ensures { self.new ≡ rows_set rows.now is_set.now }
    {
        self.rows.clear();
        for i in 0..rows.len() {
            self.rows.push_reserved(set_row(rows[i], is_set[i]));
        }
    }

    /// The row that a write had set of the claim at this place, if it was there and one had.
    pub fn row(&self, place: usize) -> Option<Row>
        ensures { result ≡ row_saved self.now place }
    {
        match self.rows.get(place) {
            Some(row) => *row,
            None => None,
        }
    }
}

// The row, where a write has set it.
fn set_row(row: Row, is_set: bool) -> Option<Row>
    ensures { result ≡ row_set row is_set }
{
    if is_set { Some(row) } else { None }
}
