//! What stays of what a transaction does, once it has gone back wherever it did.
ghost use Rattle.std.specs.Prelude.{◌≡◌, [], ◌∷◌, ◌++◌, OnOk, OnErr, length};
ghost use Rattle.erm_model.specs.Run.{back_to, begins, going_on, saved_as};

use std::alloc::{AllocError, Global};
use std::marker::Model;

/// The places of what stays, in order. A way back drops those that came since its savepoint. Nothing that stands at the places
/// is copied: a savepoint costs a number. Contracts see the list, and what it was at each savepoint.
#[derive(Drop)]
pub struct Staying {
    places: Vec<usize>,
    // how long the list was at each savepoint
    lengths: Vec<usize>,
}

impl Model for Staying {
    ghost use Rattle.std.specs.Prelude.{List, ℕ};
    ghost use Rattle.erm_model.specs.Run.{Saving};
    ghost use Rattle.erm_model.specs.Staying.{AreLengthsOf, fronts};

    ghost Value = { Saving (List ℕ) };

    ghost view = { λ s. fronts s.places.items s.lengths.items };

    ghost invariant = { λ s. AreLengthsOf s.places.items s.lengths.items };
}

impl Staying {
    /// Of nothing.
    pub fn new(alloc: Global) -> Staying
        ensures { result ≡ begins [] }
    {
        Staying {
            places: Vec::new(alloc),
            lengths: Vec::new(alloc),
        }
    }

    /// One more stays, at this place.
    pub fn add(&mut self, place: usize) -> Result<(), AllocError>
        ensures ok { OnOk result (self.new ≡ going_on (self.old.now ++ place ∷ []) self.old) }
        ensures err { OnErr result (self.new ≡ self.old) }
    {
        self.places.push(place)?;
        Ok(())
    }

    /// One savepoint more.
    pub fn save(&mut self) -> Result<(), AllocError>
        ensures ok { OnOk result (self.new ≡ record { now = self.old.now; saved = self.old.saved ++ self.old.now ∷ [] }) }
        ensures err { OnErr result (self.new ≡ self.old) }
    {
        let length = self.places.len();
        self.lengths.push(length)?;
        Ok(())
    }

    /// What stayed at the savepoint of this number stays. With none of the number nothing changes.
    pub fn back(&mut self, n: u32)
        ensures { self.new ≡ back_to n (saved_as n self.old.saved) self.old }
    {
        if let Some(length) = nth_length(&self.lengths, n) {
            self.places.truncate(length);
            self.lengths.truncate(n as usize);
        }
    }

    /// How many savepoints there are.
    pub fn held(&self) -> usize
        ensures { result ≡ length self.now.saved }
    {
        self.lengths.len()
    }

    /// The places.
    pub fn as_slice(&self) -> &[usize]
        ensures { result.now ≡ self.now.now }
    {
        &self.places
    }
}

// How long the list was at the savepoint of this number, from 1.
fn nth_length(lengths: &[usize], n: u32) -> Option<usize>
    ensures { result ≡ saved_as n lengths.now }
{
    lengths.get(n.checked_sub(1)? as usize).copied()
}
