//! Reads.
ghost use Rattle.std.specs.Prelude.{◌≡◌, ◌-◌, ◌<◌, IfErr, IfOk, MatchOption, None, OnOk, Some, ◌==◌, false, if◌then◌else◌, length, map, true};
ghost use Rattle.erm_machine.specs.Decided.{read_of, written_of};
ghost use Rattle.erm_machine.specs.Reading.{has_read};
ghost use Rattle.erm_machine.specs.Seat.{read_at};
ghost use Rattle.erm_sound.specs.Kept.{SoundUnder};
ghost use Rattle.erm_machine.specs.Words.{is_session};
ghost use Rattle.erm_machine.specs.declared.limits.TheConstants.{READ_LIMIT};
ghost use Rattle.erm_model.specs.declared.limits.TheConstants.{OID_LIMIT};
ghost use Rattle.erm_model.specs.declared.outcome.Phase.TheVariants as phase;
ghost use Rattle.erm_core.specs.Cores.{core_of};
ghost use Rattle.erm_core.specs.Rooms.{HasCallRoom};
ghost use Rattle.erm_core.specs.declared.need.Need.TheVariants as need;
ghost use Rattle.erm_core_steps.specs.Reads.{closed_window, finds, read_step, stage_of, DidRegister, HasOwnRow, HasRegistered, IsAtWork, IsExcluded};
ghost use Rattle.erm_lists.specs.Rooms.{HasOpenWindow};
ghost use Rattle.erm_lists.specs.Stands.{Stands, lists_view};
ghost use Rattle.erm_world.specs.Calls.{DidNotRead, DidRead, IsNew};
ghost use Rattle.erm_world.specs.World.{IsSession, phase_at, work_at};
ghost use Rattle.erm_world.specs.Works.{is_claimed, row_read};

use crate::Lists;
use erm_core::Need;
use erm_machine::{Claim, Kind, READ_LIMIT, Read};
use erm_model::{Oid, Row, RowLaw, RowStop, Seat, Stamp};

// The row of an object after one more claim.
fn row_after(claim: &Claim, oid: Oid, row: Option<Row>) -> Option<Row>
    ensures { result ≡ (if claim.now.version.oid == oid then Some claim.now.row else row) }
{
    if claim.version.oid == oid {
        Some(claim.row)
    } else {
        row
    }
}

// The row of an object as these claims leave it, or none where it isn't among them.
fn claimed_row(claims: &[Claim], oid: Oid) -> Option<Row>
    ensures { MatchOption result (is_claimed (map written_of claims.now) oid ≡ false) (λ row. HasOwnRow (map written_of claims.now) oid row) }
{
    let mut row = None;
    for c in claims {
        row = row_after(c, oid, row);
    }
    row
}

// The row that these reads have of an object.
fn first_row(reads: &[Read], oid: Oid) -> Option<Row>
    ensures { result ≡ row_read (map read_of reads.now) oid }
{
    for r in reads {
        if r.version.oid == oid {
            return Some(r.row);
        }
    }
    None
}

impl<L: RowLaw> Lists<L> {
    // The row of an object as the seat's transaction leaves it, or none where it hasn't claimed it.
    fn own_row(&self, seat: Seat, oid: Oid) -> Option<Row>
        requires session { is_session seat ≡ true }
        ensures { MatchOption result (is_claimed (map written_of ((core_of self.now.state).seats seat).current.writes) oid ≡ false)
            (λ row. HasOwnRow (map written_of ((core_of self.now.state).seats seat).current.writes) oid row) }
    {
        claimed_row(self.state.seat(seat).current.writes.as_slice(), oid)
    }

    // The row that the seat's transaction has read of an object.
    fn row_read(&self, seat: Seat, oid: Oid) -> Option<Row>
        requires session { is_session seat ≡ true }
        ensures { result ≡ row_read (map read_of ((core_of self.now.state).seats seat).current.reads) oid }
    {
        first_row(self.state.seat(seat).current.reads.as_slice(), oid)
    }

    // The row of the last version that the seat's transaction has read.
    fn newest_row(&self, seat: Seat) -> Row
        requires session { is_session seat ≡ true }
        ensures { result ≡ (read_at ((core_of self.now.state).seats seat).current (length ((core_of self.now.state).seats seat).current.reads - 1)).row }
    {
        let t = &self.state.seat(seat).current;
        t.read_at(t.reads.len().saturating_sub(1)).row
    }

    // The running successor and predecessor stamp, where they exclude the seat's transaction.
    fn closed_window(&self, seat: Seat) -> Option<(Stamp, Stamp)>
        requires session { is_session seat ≡ true }
        ensures { result ≡ closed_window ((core_of self.now.state).seats seat).current }
    {
        let t = &self.state.seat(seat).current;
        if 0 < t.succ && t.succ <= t.pred {
            Some((t.succ, t.pred))
        } else {
            None
        }
    }

    // Registers the version found, of an object of which the transaction has read none: its row.
    fn register(&mut self, seat: Seat, oid: Oid) -> Row
        requires sound { SoundUnder L.law (core_of self.old.state) }
        requires at { IsAtWork seat (core_of self.old.state) }
        requires stage { stage_of ((core_of self.old.state).seats seat).task ≡ finds oid }
        requires done { read_step ((core_of self.old.state).seats seat).task ≡ None }
        requires few { length ((core_of self.old.state).seats seat).current.reads < READ_LIMIT }
        requires unread { has_read oid ((core_of self.old.state).seats seat).current ≡ false }
        requires room { HasCallRoom self.old.state seat need.Read }
        ensures sound { SoundUnder L.law (core_of self.new.state) }
        ensures sessions { self.new.sessions ≡ self.old.sessions }
        ensures registered { HasRegistered self.old.sessions seat oid result (core_of self.old.state) (core_of self.new.state) }
    {
        erm_core::rooms_serve();
        let version = self.version(seat);
        self.take(seat, Kind::SetReader { version });
        self.newest_row(seat)
    }

    // Finds the version of an object that the transaction is to see, registers and rates it: its row.
    fn read_version(&mut self, seat: Seat, oid: Oid) -> Result<Row, RowStop>
        requires stands { Stands L.law self.old }
        requires session { IsSession (lists_view self.old) seat }
        requires active { phase_at (lists_view self.old) seat ≡ phase.Active }
        requires object { oid < OID_LIMIT }
        requires new { IsNew (work_at (lists_view self.old) seat) oid }
        requires few { length (work_at (lists_view self.old) seat).reads < READ_LIMIT }
        requires room { HasCallRoom self.old.state seat need.Read }
        ensures stands { Stands L.law self.new }
        ensures ok { IfOk result (λ row. DidRegister (lists_view self.old) seat oid row (lists_view self.new)) }
        ensures err { IfErr result (λ stop. DidNotRead (lists_view self.old) seat oid stop (lists_view self.new)) }
    {
        self.arrive(seat, oid)?;
        self.go_on(seat);
        let row = self.register(seat, oid);
        self.go_on(seat);
        Ok(row)
    }

    // The early test: where the running window is closed, the transaction ends.
    pub(crate) fn test_early(&mut self, seat: Seat) -> Result<(), RowStop>
        requires stands { Stands L.law self.old }
        requires session { IsSession (lists_view self.old) seat }
        requires active { phase_at (lists_view self.old) seat ≡ phase.Active }
        ensures stands { Stands L.law self.new }
        ensures ok { OnOk result (lists_view self.new ≡ lists_view self.old) }
        ensures open_still { OnOk result (HasOpenWindow self.new.state seat) }
        ensures err { IfErr result (IsExcluded (lists_view self.old) seat (lists_view self.new)) }
    {
        match self.closed_window(seat) {
            Some((succ, pred)) => {
                self.abort(seat);
                Err(RowStop::Excluded { succ, pred })
            }
            None => Ok(()),
        }
    }

    // A read of a version, for which there is room, and then the early test.
    fn read_now(&mut self, seat: Seat, oid: Oid) -> Result<Row, RowStop>
        requires stands { Stands L.law self.old }
        requires session { IsSession (lists_view self.old) seat }
        requires active { phase_at (lists_view self.old) seat ≡ phase.Active }
        requires object { oid < OID_LIMIT }
        requires new { IsNew (work_at (lists_view self.old) seat) oid }
        requires few { length (work_at (lists_view self.old) seat).reads < READ_LIMIT }
        requires room { HasCallRoom self.old.state seat need.Read }
        ensures stands { Stands L.law self.new }
        ensures ok { IfOk result (λ row. DidRead (lists_view self.old) seat oid row (lists_view self.new)) }
        ensures open_still { IfOk result (λ row. HasOpenWindow self.new.state seat) }
        ensures err { IfErr result (λ stop. DidNotRead (lists_view self.old) seat oid stop (lists_view self.new)) }
    {
        let row = self.read_version(seat, oid)?;
        self.test_early(seat)?;
        Ok(row)
    }

    // A read of an object that the transaction has neither claimed nor read before.
    fn read_first(&mut self, seat: Seat, oid: Oid) -> Result<Row, RowStop>
        requires stands { Stands L.law self.old }
        requires session { IsSession (lists_view self.old) seat }
        requires active { phase_at (lists_view self.old) seat ≡ phase.Active }
        requires object { oid < OID_LIMIT }
        requires new { IsNew (work_at (lists_view self.old) seat) oid }
        ensures stands { Stands L.law self.new }
        ensures ok { IfOk result (λ row. DidRead (lists_view self.old) seat oid row (lists_view self.new)) }
        ensures open_still { IfOk result (λ row. HasOpenWindow self.new.state seat) }
        ensures err { IfErr result (λ stop. DidNotRead (lists_view self.old) seat oid stop (lists_view self.new)) }
    {
        if !self.has_room(seat, Need::Read) {
            return Err(RowStop::Memory);
        }
        if self.reads(seat) >= READ_LIMIT {
            return Err(RowStop::ReadsFull);
        }
        self.read_now(seat, oid)
    }

    /// The row of an object as the transaction sees it: its own where it is claimed, else the newest below its begin stamp, which
    /// then counts as read.
    pub fn read(&mut self, seat: Seat, oid: Oid) -> Result<Row, RowStop>
        requires stands { Stands L.law self.old }
        requires session { IsSession (lists_view self.old) seat }
        requires active { phase_at (lists_view self.old) seat ≡ phase.Active }
        requires object { oid < OID_LIMIT }
        ensures stands { Stands L.law self.new }
        ensures ok { IfOk result (λ row. DidRead (lists_view self.old) seat oid row (lists_view self.new)) }
        ensures open_still { IfOk result (λ row. IsNew (work_at (lists_view self.old) seat) oid → HasOpenWindow self.new.state seat) }
        ensures err { IfErr result (λ stop. DidNotRead (lists_view self.old) seat oid stop (lists_view self.new)) }
    {
        if let Some(row) = self.own_row(seat, oid) {
            return Ok(row);
        }
        if let Some(row) = self.row_read(seat, oid) {
            return Ok(row);
        }
        self.read_first(seat, oid)
    }
}
