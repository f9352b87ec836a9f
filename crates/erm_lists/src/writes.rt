//! Writes.
ghost use Rattle.std.specs.Prelude.{◌≡◌, ◌≢◌, ◌<◌, ℕ, IfErr, OnOk, false, length, map, true};
ghost use Rattle.erm_machine.specs.Core.{claim_at, no_claim};
ghost use Rattle.erm_machine.specs.Decided.{written_of};
ghost use Rattle.erm_machine.specs.Words.{is_session};
ghost use Rattle.erm_machine.specs.declared.task.Task.TheVariants.{Rest};
ghost use Rattle.erm_model.specs.declared.TheConstants.{ROW_WORDS};
ghost use Rattle.erm_model.specs.declared.limits.TheConstants.{OID_LIMIT};
ghost use Rattle.erm_model.specs.declared.outcome.Phase.TheVariants as phase;
ghost use Rattle.erm_model.specs.declared.row_stop.RowStop.TheVariants.{CellsFull};
ghost use Rattle.erm_core.specs.Cores.{core_of};
ghost use Rattle.erm_core_calls.specs.Going.{own_at};
ghost use Rattle.erm_core_steps.specs.Claiming.{StandsAt};
ghost use Rattle.erm_core_steps.specs.Reads.{closed_window};
ghost use Rattle.erm_lists.specs.Rooms.{HasOpenWindow};
ghost use Rattle.erm_lists.specs.Stands.{Stands, lists_view};
ghost use Rattle.erm_world.specs.Calls.{DidNotClaim, DidWrite, Works};
ghost use Rattle.erm_world.specs.World.{IsSession, phase_at, work_at};
ghost use Rattle.erm_world.specs.Works.{is_claimed, setting};

use crate::Lists;
use crate::installs::own_number;
use erm_machine::{CellWord, Claim, Kind};
use erm_model::{Oid, ROW_WORDS, Row, RowLaw, RowStop, Seat};

// The place of the claim on an object among these.
fn claim_place(claims: &[Claim], oid: Oid) -> usize
    requires claimed { is_claimed (map written_of claims.now) oid ≡ true }
    ensures { StandsAt claims.now oid result }
{
    for place in 0..claims.len() {
        if claims[place].version.oid == oid {
            return place;
        }
    }
    0
}

// The words of a row.
pub(crate) fn words_of(row: &Row) -> &[u64]
    ensures same { result.now ≡ row.now }
    ensures all { length result.now ≡ ROW_WORDS }
{
    row
}

impl<L: RowLaw> Lists<L> {
    // The place of the claim on an object that the seat's transaction has claimed.
    fn place_claimed(&self, seat: Seat, oid: Oid) -> usize
        requires session { is_session seat ≡ true }
        requires claimed { is_claimed (map written_of ((core_of self.now.state).seats seat).current.writes) oid ≡ true }
        ensures { StandsAt ((core_of self.now.state).seats seat).current.writes oid result }
    {
        claim_place(self.state.seat(seat).current.writes.as_slice(), oid)
    }

    // The number of a claim's own cell.
    fn own_cell(&self, seat: Seat, place: usize) -> u32
        requires session { is_session seat ≡ true }
        ensures { result ≡ own_at ((core_of self.now.state).seats seat).current place }
    {
        own_number(self.state.seat(seat).current.claim_at(place).own)
    }

    // Sets the row of an object that the transaction has claimed to these words.
    pub(crate) fn set_row(&mut self, seat: Seat, oid: Oid, words: &[u64])
        requires stands { Stands L.law self.old }
        requires session { IsSession (lists_view self.old) seat }
        requires active { phase_at (lists_view self.old) seat ≡ phase.Active }
        requires claimed { is_claimed (work_at (lists_view self.old) seat).claims oid ≡ true }
        requires all { length words.now ≡ ROW_WORDS }
        ensures stands { Stands L.law self.new }
        ensures set { Works (lists_view self.old) seat (setting oid words.now (work_at (lists_view self.old) seat)) (lists_view self.new) }
        ensures rests { ((core_of self.new.state).seats seat).task ≡ Rest }
        ensures window { closed_window ((core_of self.new.state).seats seat).current ≡ closed_window ((core_of self.old.state).seats seat).current }
    {
        erm_core_view::writes_show_the_row();
        let claim = self.place_claimed(seat, oid);
        let cell = self.own_cell(seat, claim);
        for k in 0..ROW_WORDS {
            let word = CellWord::Row(k as u8);
            self.go(
                seat,
                Kind::StoreCell {
                    claim,
                    cell,
                    word,
                    value: words[k],
                },
            );
        }
    }

    /// Sets the row of an object, below 2^14, and claims it where it isn't claimed yet. For a claimed object the answer is `Ok`;
    /// another is refused as its claim is, and its row then stays.
    pub fn write(&mut self, seat: Seat, oid: Oid, row: &Row) -> Result<(), RowStop>
        requires stands { Stands L.law self.old }
        requires session { IsSession (lists_view self.old) seat }
        requires active { phase_at (lists_view self.old) seat ≡ phase.Active }
        requires object { oid < OID_LIMIT }
        ensures stands { Stands L.law self.new }
        ensures ok { OnOk result (DidWrite (lists_view self.old) seat oid row.now (lists_view self.new)) }
        ensures open_still { OnOk result (is_claimed (work_at (lists_view self.old) seat).claims oid ≡ false → HasOpenWindow self.new.state seat) }
        ensures err { IfErr result (λ stop. DidNotClaim (lists_view self.old) seat oid stop (lists_view self.new)) }
        ensures cells { IfErr result (λ stop. (drawn : ℕ) → stop ≢ CellsFull drawn) }
    {
        self.claim(seat, oid)?;
        self.set_row(seat, oid, words_of(row));
        Ok(())
    }
}
