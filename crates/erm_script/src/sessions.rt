//! The names of sessions, as the lines of a script tell them one after another.
ghost use Rattle.std.specs.Prelude.{◌≡◌, ◌≤◌, [], ◌∷◌, ◌++◌, length, IfNone, IfOk, IfSome, OnOk};
ghost use Rattle.erm_model.specs.Member.{◌∈◌};
ghost use Rattle.erm_script.specs.Seats.{IsSeatOf};

use arrayvec::ArrayVec;
use erm_model::{NAME_BYTES, Name, Seat};
use indexmap::IndexSet;
use std::alloc::{AllocError, Global};
use std::marker::Model;

/// The bytes of a name.
type Bytes = ArrayVec<u8, NAME_BYTES>;

/// The names of sessions, each once, in the order of their first lines. Contracts see the list of the names.
#[derive(Drop)]
pub struct Sessions {
    names: IndexSet<Bytes>,
}

impl Model for Sessions {
    ghost use Rattle.std.specs.Prelude.{List, ℕ, map};

    ghost Value = { List (List ℕ) };

    ghost view = { λ sessions. map (λ name. name.items) sessions.names.keys };
}

impl Sessions {
    /// No session yet.
    pub fn new(alloc: Global) -> Sessions
        ensures { result ≡ [] }
    {
        Sessions {
            names: IndexSet::new(alloc),
        }
    }

    /// How many there are.
    pub fn len(&self) -> usize
        ensures { result ≡ length self.now }
    {
        self.names.len()
    }

    /// The seat of a session, its place among those named or the next one, or `None` where it would be one too many.
    pub fn seat(&self, name: &Name, most: Seat) -> Option<Seat>
        requires { length self.now ≤ most }
        ensures seat { IfSome result (λ seat. IsSeatOf most name.now self.now seat) }
        ensures full { IfNone result ((name.now ∈ self.now → ⊥) × (most ≤ length self.now)) }
    {
        let count = self.len();
        match self.names.get_index_of(&bytes_of(name)) {
            Some(place) => Some(place as Seat + 1),
            None if count < usize::from(most) => Some(count as Seat + 1),
            None => None,
        }
    }

    /// Adds a session that wasn't named before.
    pub fn add(&mut self, name: &Name) -> Result<(), AllocError>
        requires { name.now ∈ self.old → ⊥ }
        ensures { OnOk result (self.new ≡ self.old ++ name.now ∷ []) }
    {
        self.names.insert(bytes_of(name))?;
        Ok(())
    }

    /// The names, in order.
    pub fn to_names(&self, alloc: Global) -> Result<Vec<Name>, AllocError>
        ensures { IfOk result (λ names. names.items ≡ self.now) }
    {
        let mut names = Vec::with_capacity(alloc, self.names.len())?;
        for bytes in self.names.as_slice() {
            names.push(name_of(bytes))?;
        }
        Ok(names)
    }
}

// the bytes of a name
fn bytes_of(name: &Name) -> Bytes
    ensures { result.items ≡ name.now }
{
    ArrayVec::try_from(name.as_slice()).unwrap()
}

// the name of these bytes
fn name_of(bytes: &Bytes) -> Name
    ensures { result ≡ bytes.now.items }
{
    Name::new(bytes.as_slice()).unwrap()
}
