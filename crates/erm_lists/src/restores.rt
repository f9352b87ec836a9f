//! The way back of a transaction: the rows of its claims are as they were.
ghost use Rattle.std.specs.Prelude.{◌≡◌, ◌<◌, length, map, true};
ghost use Rattle.std.specs.Option.{option_copied};
ghost use Rattle.erm_core.specs.Cores.{core_of};
ghost use Rattle.erm_lists.specs.Restores.{AreKept, WasFound, restored_claim, with_claim};
ghost use Rattle.erm_world.specs.Saves.{HasClaimed, restored, undone, with_claims};
ghost use Rattle.erm_lists.specs.Stands.{Stands, lists_view};
ghost use Rattle.erm_machine.specs.Core as machine;
ghost use Rattle.erm_machine.specs.Decided.{written_of};
ghost use Rattle.erm_machine.specs.Words.{is_session};
ghost use Rattle.erm_machine.specs.declared.task.Task.TheVariants.{Rest};
ghost use Rattle.erm_model.specs.declared.outcome.Phase.TheVariants.{Active};
ghost use Rattle.erm_world.specs.Calls.{Works};
ghost use Rattle.erm_world.specs.World.{IsSession, phase_at, work_at};

use crate::Lists;
use crate::writes::words_of;
use erm_machine::{Claim, Kind};
use erm_model::{Row, RowLaw, Seat, VersionWritten};

impl<L: RowLaw> Lists<L> {
    // What the seat's transaction writes.
    fn writes(&self, seat: Seat) -> &[Claim]
        requires session { is_session seat ≡ true }
        ensures { result.now ≡ ((core_of self.now.state).seats seat).current.writes }
    {
        self.state.seat(seat).current.writes.as_slice()
    }

    /// The claims of the seat's transaction, in order.
    pub fn claims_made(&self, seat: Seat) -> &[Claim]
        requires stands { Stands L.law self.now }
        requires session { IsSession (lists_view self.now) seat }
        requires active { phase_at (lists_view self.now) seat ≡ Active }
        ensures { map written_of result.now ≡ (work_at (lists_view self.now) seat).claims }
    {
        self.writes(seat)
    }

    // A claim of the seat's transaction.
    fn claim_made(&self, seat: Seat, place: usize) -> Claim
        requires session { is_session seat ≡ true }
        ensures { result ≡ machine.claim_at ((core_of self.now.state).seats seat).current place }
    {
        self.state.seat(seat).current.claim_at(place)
    }

    // Sets the row of the claim at a place.
    fn set_at(&mut self, seat: Seat, place: usize, row: &Row)
        requires stands { Stands L.law self.old }
        requires session { IsSession (lists_view self.old) seat }
        requires active { phase_at (lists_view self.old) seat ≡ Active }
        requires within { place < length ((core_of self.old.state).seats seat).current.writes }
        ensures stands { Stands L.law self.new }
        ensures set { Works (lists_view self.old) seat
            (with_claim place (record (written_of (machine.claim_at ((core_of self.old.state).seats seat).current place)) { row = row.now; is_set = true })
            (work_at (lists_view self.old) seat)) (lists_view self.new) }
        ensures rests { ((core_of self.new.state).seats seat).task ≡ Rest }
    {
        let claim = self.claim_made(seat, place);
        self.set_row(seat, claim.version.oid, words_of(row));
    }

    // Undoes the writes of the claim at a place: its row is that of the version overwritten.
    fn undo_at(&mut self, seat: Seat, place: usize)
        requires stands { Stands L.law self.old }
        requires session { IsSession (lists_view self.old) seat }
        requires active { phase_at (lists_view self.old) seat ≡ Active }
        requires within { place < length ((core_of self.old.state).seats seat).current.writes }
        ensures stands { Stands L.law self.new }
        ensures undone { Works (lists_view self.old) seat
            (with_claim place (undone (written_of (machine.claim_at ((core_of self.old.state).seats seat).current place)))
            (work_at (lists_view self.old) seat)) (lists_view self.new) }
    {
        let claim = self.claim_made(seat, place);
        self.set_at(seat, place, &claim.base);
        self.go(seat, Kind::Unset { claim: place });
    }

    // The claim at a place is as it was, or undone where it wasn't made yet.
    fn restore_at(&mut self, seat: Seat, place: usize, saved: Option<&VersionWritten>)
        requires stands { Stands L.law self.old }
        requires session { IsSession (lists_view self.old) seat }
        requires active { phase_at (lists_view self.old) seat ≡ Active }
        requires within { place < length ((core_of self.old.state).seats seat).current.writes }
        requires found { WasFound (option_copied saved) (written_of (machine.claim_at ((core_of self.old.state).seats seat).current place)) }
        ensures stands { Stands L.law self.new }
        ensures restored { Works (lists_view self.old) seat
            (with_claim place (restored_claim (option_copied saved.entry) (written_of (machine.claim_at ((core_of self.old.state).seats seat).current place)))
            (work_at (lists_view self.old) seat)) (lists_view self.new) }
    {
        match saved {
            Some(saved) if saved.is_set => self.set_at(seat, place, &saved.row),
            _ => self.undo_at(seat, place),
        }
    }

    /// Goes back to where the transaction had these claims, the first of those that it has: each of them is as it was, and each
    /// one made since has the row that it found. No claim is given up, and no memory is taken.
    pub fn restore(&mut self, seat: Seat, saved: &[VersionWritten])
        requires stands { Stands L.law self.old }
        requires session { IsSession (lists_view self.old) seat }
        requires active { phase_at (lists_view self.old) seat ≡ Active }
        requires claimed { HasClaimed saved.now (work_at (lists_view self.old) seat).claims }
        requires kept { AreKept saved.now }
        ensures stands { Stands L.law self.new }
        ensures restored { Works (lists_view self.old) seat
            (with_claims (restored saved.now (work_at (lists_view self.old) seat).claims) (work_at (lists_view self.old) seat)) (lists_view self.new) }
    {
        for place in 0..self.claims(seat) {
            self.restore_at(seat, place, saved.get(place));
        }
    }
}
