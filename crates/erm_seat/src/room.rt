//! Room for what a call's steps add to a seat's lists, and for what its transaction adds later on account of it.
ghost use Rattle.std.specs.Prelude.{◌≡◌, ◌+◌, ◌<◌, ◌≤◌, OnOk, vec_len, vec_capacity};
ghost use Rattle.erm_seat.specs.Parts.{part_of};
ghost use Rattle.erm_seat.specs.Rooms.{HasBeginRoom, HasClaimRoom, HasCutRoom, HasDrawRoom, HasSpareRoom, Reserves};

use crate::SeatState;
use erm_machine::{Claim, GREATEST_BLOCK};
use std::alloc::AllocError;

// No transaction has so many claims.
const MOST_CLAIMS: usize = 1 << 32;

// Room for one more claim, and for no other where it is the first: most transactions have one.
fn reserve_one(claims: &mut Vec<Claim>) -> Result<(), AllocError>
    ensures ok { OnOk result (vec_len claims.new < vec_capacity claims.new) }
    ensures items { claims.new.items ≡ claims.old.items }
    ensures len { vec_len claims.new ≡ vec_len claims.old }
    ensures capacity { vec_capacity claims.old ≤ vec_capacity claims.new }
{
    if claims.is_empty() {
        claims.reserve_exact(1)
    } else {
        claims.reserve(1)
    }
}

impl SeatState {
    /// Room for a transaction, where the log has room for its range. What the seat is stays.
    pub fn reserve_begin(&mut self) -> Result<(), AllocError>
        ensures ok { OnOk result (HasBeginRoom self.new) }
        ensures same { part_of self.new ≡ part_of self.old }
        ensures room { Reserves self.old self.new }
    {
        if self.flushes {
            return Ok(());
        }
        self.over.reserve(1)?;
        self.current.block.reserve(4)?;
        self.promised = true;
        Ok(())
    }

    /// Room for one more read.
    pub fn reserve_read(&mut self) -> Result<(), AllocError>
        ensures ok { OnOk result (vec_len self.new.current.reads < vec_capacity self.new.current.reads) }
        ensures same { part_of self.new ≡ part_of self.old }
        ensures room { Reserves self.old self.new }
        ensures promised { self.new.promised ≡ self.old.promised }
    {
        self.current.reads.reserve(1)
    }

    /// Room for one more object that is made.
    pub fn reserve_made(&mut self) -> Result<(), AllocError>
        ensures ok { OnOk result (vec_len self.new.current.made < vec_capacity self.new.current.made) }
        ensures same { part_of self.new ≡ part_of self.old }
        ensures room { Reserves self.old self.new }
        ensures promised { self.new.promised ≡ self.old.promised }
    {
        self.current.made.reserve(1)
    }

    /// Room for the words behind the header of a block of this size.
    pub fn reserve_draw(&mut self, size: u64) -> Result<(), AllocError>
        ensures ok { OnOk result (HasDrawRoom self.new size) }
        ensures same { part_of self.new ≡ part_of self.old }
        ensures room { Reserves self.old self.new }
        ensures promised { self.new.promised ≡ self.old.promised }
    {
        if size > GREATEST_BLOCK {
            return Ok(());
        }
        self.current
            .block
            .reserve((size as usize).saturating_sub(1))
    }

    /// Room for a call that claims, whose cut makes so many cells spare at most.
    pub fn reserve_claim(&mut self, cells: usize) -> Result<(), AllocError>
        ensures ok { OnOk result (HasCutRoom self.new cells) }
        ensures same { part_of self.new ≡ part_of self.old }
        ensures room { Reserves self.old self.new }
        ensures promised { self.new.promised ≡ self.old.promised }
    {
        self.reserve_row()?;
        self.reserve_spare(cells)
    }

    // Room for one more claim.
    fn reserve_row(&mut self) -> Result<(), AllocError>
        ensures ok { OnOk result (HasClaimRoom self.new) }
        ensures same { part_of self.new ≡ part_of self.old }
        ensures room { Reserves self.old self.new }
        ensures promised { self.new.promised ≡ self.old.promised }
    {
        let claims = self.current.writes.len();
        if claims >= MOST_CLAIMS {
            return Err(AllocError);
        }
        reserve_one(&mut self.current.writes)?;
        self.current.block.reserve(4 + 17 * (claims + 1))?;
        self.spare.reserve(claims + 1)
    }

    // Room for so many spare cells and one more, beside those of all claims.
    fn reserve_spare(&mut self, cells: usize) -> Result<(), AllocError>
        ensures ok { OnOk result (HasSpareRoom self.new (cells + 1)) }
        ensures same { part_of self.new ≡ part_of self.old }
        ensures room { Reserves self.old self.new }
        ensures promised { self.new.promised ≡ self.old.promised }
        ensures current { self.new.current ≡ self.old.current }
        ensures spare { vec_len self.new.spare ≡ vec_len self.old.spare }
    {
        let Some(cells) = cells.checked_add(1) else {
            return Err(AllocError);
        };
        match self.current.writes.len().checked_add(cells) {
            Some(more) => self.spare.reserve(more),
            None => Err(AllocError),
        }
    }
}
