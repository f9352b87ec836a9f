//! Room for a call of several steps, made once, so that none of its steps takes memory.
ghost use Rattle.std.specs.Prelude.{◌≡◌, ◌+◌, ◌<◌, ◌≤◌, MatchOption, OnOk, Some, slice_get, vec_len, vec_capacity};
ghost use Rattle.erm_machine.specs.declared.limits.TheConstants.{ANNOUNCERS};
ghost use Rattle.erm_core.specs.Cores.{core_of, objects_of};
ghost use Rattle.erm_core.specs.Rooms.{cells_of_need, HasCallRoom, HasNeedRoom, HasPromiseRoom, HasRoom, HasVersionRoom, IsOfCall, IsOfNone, PromisesFor, SharedHasNeedRoom};
ghost use Rattle.erm_kept.specs.Objects.{chain_len};
ghost use Rattle.erm_kept.specs.declared.object.ObjectState.{ObjectState};
ghost use Rattle.erm_seat.specs.Parts.{part_of};
ghost use Rattle.erm_seat.specs.Rooms.{HasDrawRoom, Reserves};
ghost use Rattle.erm_seat.specs.declared.seat.SeatState.{SeatState};

use super::State;
use crate::Need;
use erm_machine::{ANNOUNCERS, Counter, Event, Kind, TailUse};
use erm_model::{Oid, Seat};
use erm_seat::SeatState;
use std::alloc::AllocError;

// What a step of this kind needs room for; a range is drawn apart.
fn need_of(kind: Kind) -> Option<Need>
    ensures { MatchOption result (IsOfNone kind) (λ need. IsOfCall need kind) }
{
    match kind {
        Kind::LoadTail {
            purpose: TailUse::Begin,
        } => Some(Need::Begin),
        Kind::SetReader { .. } => Some(Need::Read),
        Kind::Claim { oid, .. } => Some(Need::Claim { oid }),
        Kind::SwapLink { version } => Some(Need::Claim { oid: version.oid }),
        Kind::AddCounter {
            counter: Counter::Objects,
        } => Some(Need::Make),
        _ => None,
    }
}

// Room of a seat's own lists for a call, whose cut makes so many cells spare at most.
fn reserve_need(x: &mut SeatState, need: Need, cells: usize) -> Result<(), AllocError>
    ensures ok { OnOk result (HasNeedRoom x.new need cells) }
    ensures same { part_of x.new ≡ part_of x.old }
    ensures room { Reserves x.old x.new }
    ensures promise { PromisesFor need x.old x.new }
{
    match need {
        Need::Begin => x.reserve_begin(),
        Need::Read => x.reserve_read(),
        Need::Claim { .. } => x.reserve_claim(cells),
        Need::Make => x.reserve_made(),
    }
}

impl State {
    // How many cells a call's cut makes spare at most.
    fn cells(&self, need: Need) -> usize
        ensures { result ≡ cells_of_need self.now need }
    {
        match need {
            Need::Claim { oid } => match self.objects.get(oid as usize) {
                Some(object) => object.chain_len(),
                None => 0,
            },
            _ => 0,
        }
    }

    // Room of what is shared for a call.
    fn reserve_shared(&mut self, need: Need) -> Result<(), AllocError>
        ensures ok { OnOk result (SharedHasNeedRoom self.new need) }
        ensures core { core_of self.new ≡ core_of self.old }
        ensures seats { self.new.seats ≡ self.old.seats }
    {
        match need {
            Need::Claim { oid } => self.reserve_version(oid),
            _ => Ok(()),
        }
    }

    // Room for a version of an object, where there is one of that number.
    fn reserve_version(&mut self, oid: Oid) -> Result<(), AllocError>
        ensures ok { OnOk result (HasVersionRoom self.new oid) }
        ensures core { core_of self.new ≡ core_of self.old }
        ensures seats { self.new.seats ≡ self.old.seats }
    {
        if oid as usize >= self.objects.len() {
            return Ok(());
        }
        self.reserve_object(oid as usize)
    }

    // Room for a version of an object.
    fn reserve_object(&mut self, oid: usize) -> Result<(), AllocError>
        requires inside { oid < vec_len self.old.objects }
        ensures ok { OnOk result ((o : ObjectState) → slice_get self.new.objects.items oid ≡ Some o → vec_len o.versions < vec_capacity o.versions) }
        ensures core { core_of self.new ≡ core_of self.old }
        ensures seats { self.new.seats ≡ self.old.seats }
    {
        self.objects[oid].reserve()
    }

    // Room for a range of each seat, where the call begins a transaction.
    fn reserve_ranges(&mut self, need: Need) -> Result<(), AllocError>
        ensures ok { OnOk result (HasPromiseRoom self.new need) }
        ensures core { core_of self.new ≡ core_of self.old }
        ensures seats { self.new.seats ≡ self.old.seats }
        ensures objects { self.new.objects ≡ self.old.objects }
    {
        match need {
            Need::Begin => self.log.reserve(ANNOUNCERS as usize),
            _ => Ok(()),
        }
    }

    // Room of a seat's own lists for a call, where the log has room for a range of each seat.
    fn reserve_own(&mut self, seat: Seat, need: Need) -> Result<(), AllocError>
        requires seat { seat < ANNOUNCERS }
        requires ranges { HasPromiseRoom self.old need }
        ensures ok { OnOk result ((x : SeatState) → slice_get self.new.seats.items seat ≡ Some x → HasNeedRoom x need (cells_of_need self.old need)) }
        ensures core { core_of self.new ≡ core_of self.old }
    {
        let cells = self.cells(need);
        reserve_need(&mut self.seats[seat as usize], need, cells)
    }

    // Room of a seat's own lists for a call, where there is one of that number.
    fn reserve_seat(&mut self, seat: Seat, need: Need) -> Result<(), AllocError>
        ensures ok { OnOk result ((x : SeatState) → slice_get self.new.seats.items seat ≡ Some x → HasNeedRoom x need (cells_of_need self.old need)) }
        ensures core { core_of self.new ≡ core_of self.old }
    {
        if seat >= ANNOUNCERS {
            return Ok(());
        }
        self.reserve_ranges(need)?;
        self.reserve_own(seat, need)
    }

    /// Makes room for a call of a seat, once for all of its steps. The state stays, also after an `Err`.
    pub fn room(&mut self, seat: Seat, need: Need) -> Result<(), AllocError>
        ensures ok { OnOk result (HasCallRoom self.new seat need) }
        ensures core { core_of self.new ≡ core_of self.old }
    {
        self.reserve_seat(seat, need)?;
        self.reserve_shared(need)
    }

    // Makes room for an event, and for what its transaction adds later on account of it.
    pub(crate) fn room_for(&mut self, event: Event) -> Result<(), AllocError>
        ensures ok { OnOk result (HasRoom self.new event.seat event.kind) }
        ensures core { core_of self.new ≡ core_of self.old }
    {
        if let Kind::AddTail { size } = event.kind {
            return self.room_to_draw(event.seat, size);
        }
        match need_of(event.kind) {
            Some(need) => self.room(event.seat, need),
            None => Ok(()),
        }
    }

    /// Makes room for a seat's draw of a range of this size: one greater than a block with a row for each claim needs it. The state
    /// stays, also after an `Err`.
    pub fn room_to_draw(&mut self, seat: Seat, size: u64) -> Result<(), AllocError>
        ensures ok { OnOk result ((x : SeatState) → slice_get self.new.seats.items seat ≡ Some x → HasDrawRoom x size) }
        ensures core { core_of self.new ≡ core_of self.old }
    {
        if seat >= ANNOUNCERS {
            return Ok(());
        }
        self.seats[seat as usize].reserve_draw(size)
    }
}
