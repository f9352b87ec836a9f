//! What a step changes of what the seats share.
ghost use Rattle.std.specs.Prelude.{◌≡◌, ◌+◌, ◌%◌, ◌^◌, ◌<◌, None, vec_len, vec_capacity, ◌++◌, ◌∷◌, []};
ghost use Rattle.erm_machine.specs.declared.limits.TheConstants.{ANNOUNCERS, OBJECT_LIMIT, RING_WORDS};
ghost use Rattle.erm_machine.specs.Step as step_specs;
ghost use Rattle.erm_core.specs.Cores.{core_of, shared_of, shared_with, DrawFits};
ghost use Rattle.erm_core.specs.Kinds.{ChangesObject, ChangesPlain};
ghost use Rattle.erm_seat.specs.Kinds.{object_in};
ghost use Rattle.erm_core.specs.Rooms.{DrawsIn, HasChangeRoom};
ghost use Rattle.erm_core.specs.Seats.{promised_in, ObjectsLeave};

use super::State;
use erm_machine::{Counter, Kind, RING_WORDS, Span, Version};
use erm_model::{Oid, Seat, Stamp};

/// The object that a kind names, or the first.
pub fn object_of_kind(kind: Kind) -> Oid
    ensures { result ≡ object_in kind }
{
    match kind {
        Kind::LoadEntry { oid } | Kind::Claim { oid, .. } | Kind::Install { oid, .. } => oid,
        Kind::LoadCell { version, .. }
        | Kind::SetReader { version }
        | Kind::ClearReader { version }
        | Kind::LoadReaders { version }
        | Kind::LoadStamp { version, .. }
        | Kind::RaiseReader { version, .. }
        | Kind::StoreSucc { version, .. }
        | Kind::StoreOverwriter { version, .. }
        | Kind::SwapLink { version }
        | Kind::LoadDetached { version } => version.oid,
        _ => 0,
    }
}

impl State {
    // Stores a word of the ring.
    fn set_ring(&mut self, at: Stamp, value: u64)
        ensures core { core_of self.new ≡ record (core_of self.old) { shared = step_specs.with_ring at value (shared_of self.old) } }
        ensures log { self.new.log ≡ self.old.log }
        ensures seats { self.new.seats ≡ self.old.seats }
        ensures objects { self.new.objects ≡ self.old.objects }
    {
        self.ring[(at % RING_WORDS) as usize] = value;
    }

    // Changes the object that a kind names.
    fn change_object(
        &mut self,
        oid: Oid,
        seat: Seat,
        kind: Kind,
        found: u64,
        added: &Option<Version>,
    )
        requires known { oid < OBJECT_LIMIT }
        requires named { oid ≡ object_in kind }
        requires seat { seat < ANNOUNCERS }
        requires room { HasChangeRoom self.old kind }
        ensures core { ChangesObject kind → core_of self.new ≡ record (core_of self.old) { shared = shared_with seat kind found added.now (shared_of self.old) } }
        ensures log { self.new.log ≡ self.old.log }
        ensures seats { self.new.seats ≡ self.old.seats }
        ensures objects { ChangesObject kind → ObjectsLeave kind self.old.objects.items self.new.objects.items }
    {
        self.objects[oid as usize].change(seat, kind, found, *added);
    }

    fn add_counter(&mut self, counter: Counter, found: u64)
        ensures core { core_of self.new ≡ record (core_of self.old) { shared = step_specs.with_counter counter ((found + 1) % 2 ^ 64) (shared_of self.old) } }
        ensures log { self.new.log ≡ self.old.log }
        ensures seats { self.new.seats ≡ self.old.seats }
        ensures objects { self.new.objects ≡ self.old.objects }
    {
        let drawn = found.wrapping_add(1);
        match counter {
            Counter::Objects => self.objects_drawn = drawn,
            Counter::Cells => self.cells_drawn = drawn,
        }
    }

    // Draws a range at the tail.
    fn draw(&mut self, seat: Seat, size: u64)
        requires room { vec_len self.old.log + promised_in self.old.seats.items < vec_capacity self.old.log }
        requires fits { self.old.tail + size < 2 ^ 64 }
        ensures core { core_of self.new ≡ record (core_of self.old) { shared = record (shared_of self.old) { tail = self.old.tail + size; log = self.old.log.items ++ record { seat = seat; start = self.old.tail; size = size } ∷ [] } } }
        ensures len { vec_len self.new.log ≡ vec_len self.old.log + 1 }
        ensures room { vec_capacity self.new.log ≡ vec_capacity self.old.log }
        ensures seats { self.new.seats ≡ self.old.seats }
        ensures objects { self.new.objects ≡ self.old.objects }
    {
        self.log.push_reserved(Span {
            seat,
            start: self.tail,
            size,
        });
        self.tail += size;
    }

    // Changes a word that is shared and of no object.
    fn change_plain(&mut self, seat: Seat, kind: Kind, found: u64)
        requires room { HasChangeRoom self.old kind }
        requires fits { DrawFits self.old kind found }
        ensures core { ChangesPlain kind → core_of self.new ≡ record (core_of self.old) { shared = shared_with seat kind found None (shared_of self.old) } }
        ensures log { DrawsIn self.old self.new kind }
        ensures seats { self.new.seats ≡ self.old.seats }
        ensures objects { self.new.objects ≡ self.old.objects }
    {
        match kind {
            Kind::AddTail { size } => self.draw(seat, size),
            Kind::AddCounter { counter } => self.add_counter(counter, found),
            Kind::StoreRing { at, value } => self.set_ring(at, value),
            Kind::Decide { at, header } => self.set_ring(at, header),
            Kind::ClearRing { at } => self.set_ring(at, 0),
            Kind::StoreFlushed { value } => self.flushed = value,
            _ => {}
        }
    }

    /// Changes what is shared, where an install adds this version.
    pub fn change(&mut self, seat: Seat, kind: Kind, found: u64, added: &Option<Version>)
        requires seat { seat < ANNOUNCERS }
        requires known { object_in kind < OBJECT_LIMIT }
        requires room { HasChangeRoom self.old kind }
        requires fits { DrawFits self.old kind found }
        ensures core { core_of self.new ≡ record (core_of self.old) { shared = shared_with seat kind found added.now (shared_of self.old) } }
        ensures log { DrawsIn self.old self.new kind }
        ensures seats { self.new.seats ≡ self.old.seats }
        ensures objects { ObjectsLeave kind self.old.objects.items self.new.objects.items }
    {
        match kind {
            Kind::Claim { .. }
            | Kind::Install { .. }
            | Kind::SetReader { .. }
            | Kind::ClearReader { .. }
            | Kind::RaiseReader { .. }
            | Kind::StoreSucc { .. }
            | Kind::StoreOverwriter { .. }
            | Kind::SwapLink { .. } => {
                self.change_object(object_of_kind(kind), seat, kind, found, added)
            }
            _ => self.change_plain(seat, kind, found),
        }
    }
}
