//! What a session keeps to go back to its savepoints.
ghost use Rattle.std.specs.Prelude.{◌≡◌, ◌<◌, ◌≤◌, false, [], ◌∷◌, ◌++◌, length, slice_index_or, slice_set, take, IfOk};
ghost use Rattle.erm_model.specs.declared.limits.TheConstants.{SAVES, WRITE_LIMIT};
ghost use Rattle.erm_savepoints.specs.Saves.{no_saves, row_saved, rows_set};

use crate::savepoint::Savepoint;
use erm_model::{Row, SAVES, WRITE_LIMIT};
use std::alloc::{AllocError, Global};
use std::marker::Model;

/// What a session keeps to go back: of each claim the row that it found, and whether a write has set its row since; and the savepoints that
/// its transaction holds. All memory is taken when it is made. A contract sees a record of lists.
#[derive(Drop)]
pub struct Saves {
    found: Vec<Row>,
    is_set: Vec<bool>,
    // The savepoints held, the oldest first, and behind them the room of the others.
    points: Vec<Savepoint>,
    held: usize,
}

impl Model for Saves {
    ghost use Rattle.std.specs.Prelude.{take};
    ghost use Rattle.erm_savepoints.specs.Saves.{KeptSaves};

    ghost Value = { KeptSaves };

    ghost use Rattle.erm_savepoints.specs.SavesRoom.{HasRoom};

    ghost view = { λ s. record { found = s.found.items; is_set = s.is_set.items; points = take s.held s.points.items } };

    ghost invariant = { HasRoom };
}

impl Saves {
    /// No claim, and no savepoint.
    pub fn new(alloc: Global) -> Result<Saves, AllocError>
        ensures { IfOk result (λ saves. saves ≡ no_saves) }
    {
        let found = Vec::with_capacity(alloc, WRITE_LIMIT)?;
        let is_set = Vec::with_capacity(alloc, WRITE_LIMIT)?;
        let mut points = Vec::with_capacity(alloc, SAVES)?;
        for _ in 0..SAVES {
            points.push_reserved(Savepoint::new(alloc)?);
        }
        Ok(Saves {
            found,
            is_set,
            points,
            held: 0,
        })
    }

    /// A transaction begins: it has no claim, and no savepoint.
    pub fn clear(&mut self)
        ensures { self.new ≡ no_saves }
    {
        self.found.clear();
        self.is_set.clear();
        self.held = 0;
    }

    /// One claim more, which found this row.
    pub fn claim(&mut self, found: Row)
        requires { length self.old.found < WRITE_LIMIT }
        ensures { self.new ≡ record self.old { found = self.old.found ++ found ∷ []; is_set = self.old.is_set ++ false ∷ [] } }
    {
        self.found.push_reserved(found);
        self.is_set.push_reserved(false);
    }

    /// Whether a write has set the row of the claim at this place is this from now on.
    pub fn mark(&mut self, place: usize, is_set: bool)
        requires { place < length self.old.found }
        ensures { self.new ≡ record self.old { is_set = slice_set self.old.is_set place is_set } }
    {
        self.is_set[place] = is_set;
    }

    /// The row that the claim at this place found.
    pub fn found(&self, place: usize) -> Row
        requires { place < length self.now.found }
        ensures { result ≡ slice_index_or self.now.found place [] }
    {
        self.found[place]
    }

    /// How many savepoints are held.
    pub fn held(&self) -> u32
        ensures few { result ≤ SAVES }
        ensures held { result ≡ length self.now.points }
    {
        self.held as u32
    }

    /// One savepoint more, where the claims have these rows: it is the last one held.
    pub fn save(&mut self, rows: &[Row])
        requires room { length self.old.points < SAVES }
        requires claims { length rows.now ≡ length self.old.found }
        ensures { self.new ≡ record self.old { points = self.old.points ++ rows_set rows.now self.old.is_set ∷ [] } }
    {
        let point = &mut self.points[self.held];
        point.fill(rows, self.is_set.as_slice());
        self.held += 1;
    }

    /// The row that a write had set of the claim at this place, at the savepoint of this number, from 0, if one had.
    pub fn row_at(&self, point: usize, place: usize) -> Option<Row>
        requires { point < length self.now.points }
        ensures { result ≡ row_saved (slice_index_or self.now.points point []) place }
    {
        self.points[point].row(place)
    }

    /// The first savepoints are held, so many.
    pub fn cut(&mut self, held: usize)
        requires { held ≤ length self.old.points }
        ensures { self.new ≡ record self.old { points = take held self.old.points } }
    {
        self.held = held;
    }
}
