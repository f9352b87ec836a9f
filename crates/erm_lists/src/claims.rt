//! Claims, up to the exchange of the entry.
ghost use Rattle.std.specs.Prelude.{◌≡◌, ◌≢◌, ◌<◌, ℕ, IfErr, IfOk, OnOk, false, length, map, true};
ghost use Rattle.erm_machine.specs.Decided.{written_of};
ghost use Rattle.erm_machine.specs.Seat.{may_start};
ghost use Rattle.erm_sound.specs.Kept.{SoundUnder};
ghost use Rattle.erm_machine.specs.Words as word_specs;
ghost use Rattle.erm_machine.specs.Words.{is_session};
ghost use Rattle.erm_machine.specs.declared.limits.TheConstants.{WRITE_LIMIT};
ghost use Rattle.erm_model.specs.declared.limits.TheConstants.{OID_LIMIT};
ghost use Rattle.erm_model.specs.declared.outcome.Phase.TheVariants as phase;
ghost use Rattle.erm_model.specs.declared.row_stop.RowStop.TheVariants.{CellsFull};
ghost use Rattle.erm_core.specs.Cores.{core_of};
ghost use Rattle.erm_core.specs.Rooms.{HasCallRoom, HasSwapRoom};
ghost use Rattle.erm_core.specs.declared.need.Need.TheVariants as need;
ghost use Rattle.erm_core_steps.specs.Claiming.{HasExchanged, HasFreeHead, HasHead, is_cleared};
ghost use Rattle.erm_core_steps.specs.Reads.{GoesOn, IsAtWork};
ghost use Rattle.erm_lists.specs.Rooms.{HasOpenWindow, KeepsRoom};
ghost use Rattle.erm_lists.specs.Stands.{Stands, lists_view};
ghost use Rattle.erm_world.specs.Calls.{DidClaim, DidNotClaim, MayClaim};
ghost use Rattle.erm_world.specs.World.{IsSession, phase_at, work_at};
ghost use Rattle.erm_world.specs.Works.{is_claimed};

use crate::Lists;
use crate::steps::found;
use erm_core::Need;
use erm_kept::words::owner_of;
use erm_machine::{CellWord, Claim, Kind, Task, WRITE_LIMIT};
use erm_model::{Oid, RowLaw, RowStop, Seat};

// Whether one of these claims is on the object.
fn claims_object(claims: &[Claim], oid: Oid) -> bool
    ensures { result ≡ is_claimed (map written_of claims.now) oid }
{
    for c in claims {
        if c.version.oid == oid {
            return true;
        }
    }
    false
}

// The number of the transaction that owns an entry.
fn number_of(entry: u64) -> u32
    ensures { result ≡ word_specs.number_of entry }
{
    (entry >> 32) as u32
}

impl<L: RowLaw> Lists<L> {
    // Whether the seat's transaction has claimed the object.
    pub(crate) fn has_claimed(&self, seat: Seat, oid: Oid) -> bool
        requires session { is_session seat ≡ true }
        ensures { result ≡ is_claimed (map written_of ((core_of self.now.state).seats seat).current.writes) oid }
    {
        claims_object(self.state.seat(seat).current.writes.as_slice(), oid)
    }

    // The number of the seat's transaction.
    fn current_number(&self, seat: Seat) -> u32
        requires session { is_session seat ≡ true }
        ensures { result ≡ ((core_of self.now.state).seats seat).current.number }
    {
        self.state.seat(seat).current.number
    }

    // A read that has just found an owner clear goes on to a head, so that the next load of the entry is a claim's.
    fn leave_cleared(&mut self, seat: Seat, oid: Oid)
        requires stands { Stands L.law self.old }
        requires session { IsSession (lists_view self.old) seat }
        requires active { phase_at (lists_view self.old) seat ≡ phase.Active }
        requires object { oid < OID_LIMIT }
        requires unclaimed { is_claimed (work_at (lists_view self.old) seat).claims oid ≡ false }
        ensures sound { SoundUnder L.law (core_of self.new.state) }
        ensures sessions { self.new.sessions ≡ self.old.sessions }
        ensures goes { GoesOn self.old.sessions seat (core_of self.old.state) (core_of self.new.state) }
        ensures room { KeepsRoom self.old.state self.new.state seat }
        ensures starts { may_start ((core_of self.new.state).seats seat).task ≡ true }
        ensures left { is_cleared ((core_of self.new.state).seats seat).task ≡ false }
    {
        if let Task::Cleared { .. } = self.task(seat) {
            self.load(seat, Kind::LoadEntry { oid });
        }
    }

    // Exchanges the entry for an own one.
    fn exchange(&mut self, seat: Seat, oid: Oid, entry: u64)
        requires sound { SoundUnder L.law (core_of self.old.state) }
        requires at { IsAtWork seat (core_of self.old.state) }
        requires free { HasFreeHead (core_of self.old.state) seat oid entry }
        requires few { length ((core_of self.old.state).seats seat).current.writes < WRITE_LIMIT }
        requires room { HasCallRoom self.old.state seat (need.Claim oid) }
        ensures sound { SoundUnder L.law (core_of self.new.state) }
        ensures sessions { self.new.sessions ≡ self.old.sessions }
        ensures exchanged { HasExchanged self.old.sessions seat oid (core_of self.old.state) (core_of self.new.state) }
        ensures room { HasSwapRoom self.new.state seat oid }
    {
        erm_core::rooms_serve();
        erm_core::rooms_last();
        let number = self.current_number(seat);
        self.take(
            seat,
            Kind::Claim {
                oid,
                seen: entry,
                number,
            },
        );
    }

    // Claims an object whose head is free, and then tests early.
    fn claim_found(&mut self, seat: Seat, oid: Oid, entry: u64) -> Result<(), RowStop>
        requires stands { Stands L.law self.old }
        requires session { IsSession (lists_view self.old) seat }
        requires active { phase_at (lists_view self.old) seat ≡ phase.Active }
        requires free { HasFreeHead (core_of self.old.state) seat oid entry }
        requires may { MayClaim (work_at (lists_view self.old) seat) oid }
        requires room { HasCallRoom self.old.state seat (need.Claim oid) }
        ensures stands { Stands L.law self.new }
        ensures ok { OnOk result (DidClaim (lists_view self.old) seat oid (lists_view self.new)) }
        ensures open_still { OnOk result (HasOpenWindow self.new.state seat) }
        ensures err { IfErr result (λ stop. DidNotClaim (lists_view self.old) seat oid stop (lists_view self.new)) }
        ensures cells { IfErr result (λ stop. (drawn : ℕ) → stop ≢ CellsFull drawn) }
    {
        self.exchange(seat, oid, entry);
        if !self.finish_claim(seat) {
            return Err(RowStop::Memory);
        }
        self.test_early(seat)
    }

    // Looks at the head of an object without owner: a version at or above the begin stamp ends the transaction.
    fn claim_head(&mut self, seat: Seat, oid: Oid, entry: u64) -> Result<(), RowStop>
        requires stands { Stands L.law self.old }
        requires session { IsSession (lists_view self.old) seat }
        requires active { phase_at (lists_view self.old) seat ≡ phase.Active }
        requires object { oid < OID_LIMIT }
        requires head { HasHead (core_of self.old.state) seat oid entry }
        requires may { MayClaim (work_at (lists_view self.old) seat) oid }
        requires room { HasCallRoom self.old.state seat (need.Claim oid) }
        ensures stands { Stands L.law self.new }
        ensures ok { OnOk result (DidClaim (lists_view self.old) seat oid (lists_view self.new)) }
        ensures open_still { OnOk result (HasOpenWindow self.new.state seat) }
        ensures err { IfErr result (λ stop. DidNotClaim (lists_view self.old) seat oid stop (lists_view self.new)) }
        ensures cells { IfErr result (λ stop. (drawn : ℕ) → stop ≢ CellsFull drawn) }
    {
        let version = self.version(seat);
        let word = CellWord::Stamp;
        let stamp = found(self.load(seat, Kind::LoadCell { version, word }));
        if self.begin_stamp(seat) <= stamp {
            self.abort(seat);
            return Err(RowStop::Newer { stamp });
        }
        self.claim_found(seat, oid, entry)
    }

    // Claims an object, for which there is room: another owner ends the transaction.
    fn claim_entry(&mut self, seat: Seat, oid: Oid) -> Result<(), RowStop>
        requires stands { Stands L.law self.old }
        requires session { IsSession (lists_view self.old) seat }
        requires active { phase_at (lists_view self.old) seat ≡ phase.Active }
        requires object { oid < OID_LIMIT }
        requires may { MayClaim (work_at (lists_view self.old) seat) oid }
        requires room { HasCallRoom self.old.state seat (need.Claim oid) }
        ensures stands { Stands L.law self.new }
        ensures ok { OnOk result (DidClaim (lists_view self.old) seat oid (lists_view self.new)) }
        ensures open_still { OnOk result (HasOpenWindow self.new.state seat) }
        ensures err { IfErr result (λ stop. DidNotClaim (lists_view self.old) seat oid stop (lists_view self.new)) }
        ensures cells { IfErr result (λ stop. (drawn : ℕ) → stop ≢ CellsFull drawn) }
    {
        self.leave_cleared(seat, oid);
        let entry = found(self.load(seat, Kind::LoadEntry { oid }));
        let owner = owner_of(entry);
        if owner != 0 {
            self.abort(seat);
            return Err(RowStop::Owned {
                seat: owner,
                number: number_of(entry),
            });
        }
        self.claim_head(seat, oid, entry)
    }

    /// Claims an object, below 2^14, for writing. Its row stays, and counts as written. One that is claimed stays so. It is
    /// refused, and the transaction ends, where another one in progress has claimed the object, where a newer version was
    /// committed, or where the exclusion window known so far is closed; it is refused, and the transaction goes on, where there
    /// is no memory, or where 128 objects are claimed. Cells never run out.
    pub fn claim(&mut self, seat: Seat, oid: Oid) -> Result<(), RowStop>
        requires stands { Stands L.law self.old }
        requires session { IsSession (lists_view self.old) seat }
        requires active { phase_at (lists_view self.old) seat ≡ phase.Active }
        requires object { oid < OID_LIMIT }
        ensures stands { Stands L.law self.new }
        ensures ok { OnOk result (DidClaim (lists_view self.old) seat oid (lists_view self.new)) }
        ensures open_still { OnOk result (is_claimed (work_at (lists_view self.old) seat).claims oid ≡ false → HasOpenWindow self.new.state seat) }
        ensures err { IfErr result (λ stop. DidNotClaim (lists_view self.old) seat oid stop (lists_view self.new)) }
        ensures cells { IfErr result (λ stop. (drawn : ℕ) → stop ≢ CellsFull drawn) }
    {
        if self.has_claimed(seat, oid) {
            return Ok(());
        }
        if !self.has_room(seat, Need::Claim { oid }) {
            return Err(RowStop::Memory);
        }
        if self.claims(seat) >= WRITE_LIMIT {
            return Err(RowStop::WritesFull);
        }
        self.claim_entry(seat, oid)
    }

    /// Claims an object, below 2^14, where it isn't claimed yet, or is refused as a claim is. No version is cut off: the count is
    /// 0.
    pub fn tidy(&mut self, seat: Seat, oid: Oid) -> Result<u32, RowStop>
        requires stands { Stands L.law self.old }
        requires session { IsSession (lists_view self.old) seat }
        requires active { phase_at (lists_view self.old) seat ≡ phase.Active }
        requires object { oid < OID_LIMIT }
        ensures stands { Stands L.law self.new }
        ensures ok { OnOk result (DidClaim (lists_view self.old) seat oid (lists_view self.new)) }
        ensures open_still { OnOk result (is_claimed (work_at (lists_view self.old) seat).claims oid ≡ false → HasOpenWindow self.new.state seat) }
        ensures err { IfErr result (λ stop. DidNotClaim (lists_view self.old) seat oid stop (lists_view self.new)) }
        ensures cells { IfErr result (λ stop. (drawn : ℕ) → stop ≢ CellsFull drawn) }
        ensures none { IfOk result (λ count. count ≡ 0) }
    {
        self.claim(seat, oid)?;
        Ok(0)
    }
}
