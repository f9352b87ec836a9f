//! The savepoints that sessions hold.
ghost use Rattle.std.specs.Prelude.{◌≡◌, ◌+◌, ◌<◌, [], ◌∷◌, ◌++◌, length, map, replicate, slice_index_or, slice_set, take, IfOk, OnErr, OnOk};
ghost use Rattle.erm_machine.specs.Decided.{written_of};

use erm_machine::Claim;
use erm_model::{Seat, VersionWritten};
use std::alloc::{AllocError, Global};
use std::marker::Model;

/// By seat, the savepoints that a session's transaction holds, the oldest first: of each the claims, as they were. Contracts see lists.
#[derive(Drop)]
pub struct Savepoints {
    held: Vec<Vec<Vec<VersionWritten>>>,
    alloc: Global,
}

impl Model for Savepoints {
    ghost use Rattle.std.specs.Prelude.{List, map};
    ghost use Rattle.erm_plain.specs.Saves.{lists_of};
    ghost use Rattle.erm_model.specs.declared.history.VersionWritten.{VersionWritten};

    ghost Value = { List (List (List VersionWritten)) };

    ghost view = { λ s. map lists_of s.held.items };
}

// The claims as they are.
fn copied(alloc: Global, claims: &[Claim]) -> Result<Vec<VersionWritten>, AllocError>
    ensures { IfOk result (λ copy. copy.items ≡ map written_of claims.now) }
{
    let mut copy = Vec::with_capacity(alloc, claims.len())?;
    for c in claims {
        copy.push(VersionWritten {
            oid: c.version.oid,
            stamp: c.stamp,
            base: c.base,
            row: c.row,
            is_set: c.is_set,
        })?;
    }
    Ok(copy)
}

impl Savepoints {
    /// None, for the seats up to that of the last session.
    pub(crate) fn new(alloc: Global, sessions: Seat) -> Result<Savepoints, AllocError>
        ensures { IfOk result (λ saves. saves ≡ replicate (sessions + 1) []) }
    {
        let mut held = Vec::new(alloc);
        for _ in 0..=sessions {
            held.push(Vec::new(alloc))?;
        }
        Ok(Savepoints { held, alloc })
    }

    /// How many a session holds.
    pub(crate) fn held(&self, seat: Seat) -> usize
        requires { seat < length self.now }
        ensures { result ≡ length (slice_index_or self.now seat []) }
    {
        self.held[seat as usize].len()
    }

    /// One more, at which the claims are these.
    pub(crate) fn save(&mut self, seat: Seat, claims: &[Claim]) -> Result<(), AllocError>
        requires { seat < length self.old }
        ensures ok { OnOk result (self.new ≡ slice_set self.old seat (slice_index_or self.old seat [] ++ map written_of claims.now ∷ [])) }
        ensures err { OnErr result (self.new ≡ self.old) }
    {
        let copy = copied(self.alloc, claims)?;
        self.held[seat as usize].push(copy)?;
        Ok(())
    }

    /// The claims of the one of this number, from 0.
    pub(crate) fn saved(&self, seat: Seat, place: usize) -> &[VersionWritten]
        requires session { seat < length self.now }
        requires held { place < length (slice_index_or self.now seat []) }
        ensures { result.now ≡ slice_index_or (slice_index_or self.now seat []) place [] }
    {
        self.held[seat as usize][place].as_slice()
    }

    /// The first ones are held, so many.
    pub(crate) fn cut(&mut self, seat: Seat, held: usize)
        requires { seat < length self.old }
        ensures { self.new ≡ slice_set self.old seat (take held (slice_index_or self.old seat [])) }
    {
        self.held[seat as usize].truncate(held);
    }
}
