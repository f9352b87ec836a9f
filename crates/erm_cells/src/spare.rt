//! A session's list of spare cells.
ghost use Rattle.std.specs.Prelude.{◌≡◌, ◌-◌, ◌<◌, ◌≤◌, [], ◌∷◌, ◌++◌, length, take, drop, reverse, IfOk, MatchOption};

use erm_model::TABLE_CELLS;
use std::alloc::{AllocError, Global};
use std::marker::Model;

/// A session's spare cells, those that became spare last at the end. There is room for all cells of the table, so that no call takes
/// memory. A contract sees a list of numbers.
#[derive(Drop)]
pub struct Spare {
    cells: Vec<u32>,
}

impl Model for Spare {
    ghost use Rattle.std.specs.Prelude.{◌≤◌, ℕ, List, vec_capacity};
    ghost use Rattle.erm_model.specs.declared.limits.TheConstants.{TABLE_CELLS};

    ghost Value = { List ℕ };

    ghost view = { λ s. s.cells.items };

    ghost invariant = { λ s. TABLE_CELLS ≤ vec_capacity s.cells };
}

impl Spare {
    ghost use Rattle.erm_model.specs.declared.limits.TheConstants.{TABLE_CELLS};

    /// An empty list.
    pub fn new(alloc: Global) -> Result<Spare, AllocError>
        ensures { IfOk result (λ spare. spare ≡ []) }
    {
        let cells = Vec::with_capacity(alloc, TABLE_CELLS as usize)?;
        Ok(Spare { cells })
    }

    /// Adds a cell at the end.
    pub fn push(&mut self, cell: u32)
        requires { length self.old < TABLE_CELLS }
        ensures { self.new ≡ self.old ++ cell ∷ [] }
    {
        self.cells.push_reserved(cell);
    }

    /// Takes the last cell, if there is one.
    pub fn pop(&mut self) -> Option<u32>
        ensures { MatchOption result (self.old ≡ [] × self.new ≡ []) (λ cell. self.old ≡ self.new ++ cell ∷ []) }
    {
        self.cells.pop()
    }

    /// Turns so many of the last cells round.
    pub fn reverse_end(&mut self, count: usize)
        requires { count ≤ length self.old }
        ensures { self.new ≡ take (length self.old - count) self.old ++ reverse (drop (length self.old - count) self.old) }
    {
        let from = self.cells.len() - count;
        self.cells[from..].reverse();
    }
}
