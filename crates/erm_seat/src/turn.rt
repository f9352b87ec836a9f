//! The step of a seat, by its kind.
ghost use Rattle.std.specs.Prelude.{ℕ, ◌≡◌, ◌<◌, if◌then◌else◌, false, Some, None};
ghost use Rattle.erm_machine.specs.declared.limits.TheConstants.{ANNOUNCERS};
ghost use Rattle.erm_machine.specs.Core.{Shared};
ghost use Rattle.erm_machine.specs.Step as step_specs;
ghost use Rattle.erm_seat.specs.Kinds.{IsEntry, IsPlain, cells_in, object_in};
ghost use Rattle.erm_kept.specs.Objects.{object_of};
ghost use Rattle.erm_seat.specs.Parts.{part_of};
ghost use Rattle.erm_machine.specs.Words as words_specs;
ghost use Rattle.erm_seat.specs.Rooms.{no_growth, GoesOn, HasSeatRoom, Leaves};

use crate::SeatState;
use erm_kept::ObjectState;
use erm_kept::words::{is_sealed, reads_early};
use erm_machine::Kind;
use erm_model::Seat;

impl SeatState {
    // A step that meets no object, where there are so many cells.
    fn turn_plain(&mut self, seat: Seat, kind: Kind, found: u64, cells: u32) -> bool
        requires room { (spare : ℕ) × HasSeatRoom self.old kind spare }
        requires own { self.old.flushes ≡ words_specs.is_flusher seat }
        ensures turn { IsPlain kind → (s : Shared) → s.cell_limit ≡ cells → step_specs.part_after seat kind found s (part_of self.old) ≡ (if result then Some (part_of self.new) else None) }
        ensures kept { result ≡ false → part_of self.new ≡ part_of self.old }
        ensures room { (spare : ℕ) → Leaves kind spare result self.old self.new }
    {
        match kind {
            Kind::LoadTail { purpose } => self.load_tail(seat, purpose, found),
            Kind::AddTail { size } => self.add_tail(seat, size, found),
            Kind::StoreBegin { value } => self.store_begin(seat, value),
            Kind::StoreState { value } => self.store_state(seat, value),
            Kind::LoadBegin { seat: other } => self.load_begin(seat, other, found),
            Kind::LoadBack { seat: other } => self.load_back(other, found),
            Kind::StoreBack { value } => self.store_back(value),
            Kind::Unset { claim } => self.unset(claim),
            Kind::LoadState { seat: other, bound } => self.load_state(seat, other, bound, found),
            Kind::LoadCounter { counter } => self.load_counter(cells, counter, found),
            Kind::AddCounter { counter } => self.add_counter(cells, seat, counter, found),
            Kind::StoreRing { at, value } => self.store_ring(at, value),
            Kind::Decide { at, header } => self.decide(at, header),
            Kind::LoadRing { at } => self.load_ring(at, found),
            Kind::ClearRing { at } => self.clear_ring(at),
            Kind::StoreFlushed { value } => self.store_flushed(value),
            Kind::LoadFlushed => self.load_flushed(found),
            _ => false,
        }
    }

    fn turn_entry(&mut self, seat: Seat, kind: Kind, found: u64, object: &ObjectState) -> bool
        requires room { HasSeatRoom self.old kind (cells_in kind (object_of object.now)) }
        ensures turn { IsEntry kind → (s : Shared) → s.objects (object_in kind) ≡ object_of object.now → step_specs.part_after seat kind found s (part_of self.old) ≡ (if result then Some (part_of self.new) else None) }
        ensures kept { result ≡ false → part_of self.new ≡ part_of self.old }
        ensures room { Leaves kind (cells_in kind (object_of object.now)) result self.old self.new }
    {
        match kind {
            Kind::LoadEntry { oid } => {
                if is_sealed(self.place) {
                    self.load_read_entry(seat, oid, found)
                } else {
                    self.load_entry(seat, oid, found, object)
                }
            }
            Kind::Claim { oid, seen, number } => self.claim(seat, oid, seen, number, found, object),
            Kind::SetReader { version } => self.set_reader(seat, version, object),
            Kind::SwapLink { version } => self.swap_link(found, version, object),
            _ => false,
        }
    }

    /// A step of this kind that found this word, at this object where it names one, where there are so many cells.
    pub fn turn(
        &mut self,
        seat: Seat,
        kind: Kind,
        found: u64,
        object: &ObjectState,
        cells: u32,
    ) -> bool
        requires seat { seat < ANNOUNCERS }
        requires room { HasSeatRoom self.old kind (cells_in kind (object_of object.now)) }
        requires own { self.old.flushes ≡ words_specs.is_flusher seat }
        ensures turn { (s : Shared) → s.cell_limit ≡ cells → s.objects (object_in kind) ≡ object_of object.now → step_specs.part_after seat kind found s (part_of self.old) ≡ (if result then Some (part_of self.new) else None) }
        ensures kept { result ≡ false → part_of self.new ≡ part_of self.old }
        ensures room { Leaves kind (cells_in kind (object_of object.now)) result self.old self.new }
    {
        match kind {
            Kind::LoadEntry { .. }
            | Kind::Claim { .. }
            | Kind::SetReader { .. }
            | Kind::SwapLink { .. } => self.turn_entry(seat, kind, found, object),
            Kind::Install { oid, head } => self.install(oid, head),
            Kind::LoadCell { version, word } => {
                !reads_early(seat, word, self.task) && self.load_cell(found, version, word)
            }
            Kind::StoreCell {
                claim,
                cell,
                word,
                value,
            } => self.store_cell(claim, cell, word, value),
            Kind::ClearReader { version } => self.clear_reader(version),
            Kind::LoadReaders { version } => self.load_readers(seat, version, found),
            Kind::LoadStamp { version, word } => self.load_stamp(found, version, word),
            Kind::RaiseReader { version, value } => self.raise_reader(version, value),
            Kind::StoreSucc { version, value } => self.store_succ(version, value),
            Kind::StoreOverwriter { version, value } => self.store_overwriter(version, value),
            Kind::LoadDetached { version } => self.load_detached(found, version),
            _ => self.turn_plain(seat, kind, found, cells),
        }
    }
}
