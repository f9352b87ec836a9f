//! Steps of a claim and of a cut, of the counters, and of a write into an own cell.
ghost use Rattle.std.specs.Prelude.{ℕ, ◌++◌, ◌≡◌, ◌+◌, ◌<◌, ◌≤◌, if◌then◌else◌, false, true, Some, None, length, vec_len, vec_capacity};
ghost use Rattle.erm_machine.specs.Reading as reading_specs;
ghost use Rattle.erm_kept.specs.Objects.{object_of};
ghost use Rattle.erm_kept.specs.Tasks.{IsFresh};
ghost use Rattle.erm_machine.specs.declared.limits.TheConstants.{SESSIONS, WRITE_LIMIT};
ghost use Rattle.erm_seat.specs.Needs.{surveyed};
ghost use Rattle.erm_seat.specs.Parts.{part_of};
ghost use Rattle.erm_seat.specs.Rooms.{no_growth, GoesOn, HasClaimRoom, HasNumberRoom, HasSpareRoom};
ghost use Rattle.erm_machine.specs.declared.task.Task.TheVariants.{Copies, Numbers, Pool, Registered, Writes};
ghost use Rattle.erm_machine.specs.declared.event.Counter.TheVariants.{Objects, Cells};
ghost use Rattle.erm_machine.specs.declared.version.CellWord.TheVariants.{Overwriter};

use crate::SeatState;
use crate::reading::{lost, older};
use erm_kept::words::{blank_cell, is_active, is_rest, is_session, may_start, same_version};
use erm_kept::{ObjectState, has_base, is_own};
use erm_machine::{CellWord, Claim, Counter, OBJECT_LIMIT, OwnCell, Task, VersionAt, WRITE_LIMIT};
use erm_model::{Oid, ROW_WORDS, Seat, Stamp};

// The cells of the versions that a cut at a place takes off the chain become spare ones.
fn take_off(spare: &mut Vec<OwnCell>, place: usize, object: &ObjectState)
    requires room { vec_len spare.old + length (reading_specs.cut_off place (object_of object.now)) ≤ vec_capacity spare.old }
    ensures items { spare.new.items ≡ spare.old.items ++ reading_specs.cut_off place (object_of object.now) }
    ensures len { vec_len spare.new ≡ vec_len spare.old + length (reading_specs.cut_off place (object_of object.now)) }
    ensures capacity { vec_capacity spare.new ≡ vec_capacity spare.old }
{
    let end = place.min(object.versions.len());
    if object.cut >= end {
        return;
    }
    for version in &object.versions[object.cut..end] {
        spare.push_reserved(OwnCell {
            cell: version.cell,
            words: version.words,
        });
    }
}

impl SeatState {
    /// What follows a cut that is done.
    pub(crate) fn after_cut(&self) -> Task
        ensures task { result ≡ reading_specs.after_cut (part_of self.now) }
        ensures fresh { IsFresh result }
        ensures survey { surveyed result ≤ SESSIONS }
    {
        if self.current.newest_claim().own.is_none() {
            Task::Draws
        } else {
            Task::Rest
        }
    }

    fn detached(&self, found: u64, version: VersionAt) -> Task
        ensures task { result ≡ reading_specs.detached found version (part_of self.now) }
        ensures fresh { IsFresh result }
        ensures survey { surveyed result ≤ SESSIONS }
    {
        if found == 0 {
            self.after_cut()
        } else {
            Task::Detaches {
                version: older(version, found),
            }
        }
    }

    pub(crate) fn may_copy_row(&self, version: VersionAt) -> bool
        ensures { result ≡ reading_specs.may_copy_row version (part_of self.now) self.now.task }
    {
        match self.task {
            Task::Copies { .. } => same_version(version, self.current.newest_claim().version),
            _ => false,
        }
    }

    pub(crate) fn claim(
        &mut self,
        seat: Seat,
        oid: Oid,
        seen: u64,
        number: u32,
        found: u64,
        object: &ObjectState,
    ) -> bool
        requires room { vec_len self.old.current.writes < WRITE_LIMIT → HasClaimRoom self.old }
        ensures turn { reading_specs.claim seat oid seen number found (object_of object.now) (part_of self.old) self.old.task ≡ (if result then Some (part_of self.new) else None) }
        ensures kept { result ≡ false → part_of self.new ≡ part_of self.old }
        ensures room { GoesOn (record no_growth { claims = 1 }) self.old self.new }
    {
        let Task::Found {
            version,
            stamp,
            head: Some(entry),
        } = self.task
        else {
            return false;
        };
        if !is_active(self.place) || !is_session(seat) || oid != version.oid || seen != entry {
            return false;
        }
        if number != self.current.number || self.current.writes.len() >= WRITE_LIMIT {
            return false;
        }
        if found != seen {
            self.task = lost(seat, oid, found, version, object);
            return true;
        }
        let base = object.version_at(version.place).words.row;
        self.current.writes.push_reserved(Claim {
            version,
            stamp,
            base,
            row: base,
            own: None,
            is_set: false,
            held: true,
        });
        self.task = Task::Claimed { version };
        true
    }

    pub(crate) fn swap_link(&mut self, found: u64, version: VersionAt, object: &ObjectState) -> bool
        requires room { HasSpareRoom self.old (length (reading_specs.cut_off version.place (object_of object.now))) }
        ensures turn { reading_specs.swap_link found version (object_of object.now) (part_of self.old) self.old.task ≡ (if result then Some (part_of self.new) else None) }
        ensures kept { result ≡ false → part_of self.new ≡ part_of self.old }
        ensures room { GoesOn (record no_growth { spare = length (reading_specs.cut_off version.place (object_of object.now)) }) self.old self.new }
    {
        let Task::CutFound {
            version: in_hand,
            ..
        } = self.task
        else {
            return false;
        };
        if !is_active(self.place) || !same_version(version, in_hand) {
            return false;
        }
        self.task = self.detached(found, in_hand);
        take_off(&mut self.spare, in_hand.place, object);
        true
    }

    pub(crate) fn load_detached(&mut self, found: u64, version: VersionAt) -> bool
        ensures turn { reading_specs.load_detached found version (part_of self.old) self.old.task ≡ (if result then Some (part_of self.new) else None) }
        ensures kept { result ≡ false → part_of self.new ≡ part_of self.old }
        ensures room { GoesOn no_growth self.old self.new }
    {
        let Task::Detaches { version: in_hand } = self.task else {
            return false;
        };
        if !is_active(self.place) || !same_version(version, in_hand) {
            return false;
        }
        self.task = self.detached(found, in_hand);
        true
    }

    /// Loads a counter, where there are so many cells.
    pub(crate) fn load_counter(&mut self, cells: u32, counter: Counter, found: u64) -> bool
        ensures turn { reading_specs.load_counter cells counter found (part_of self.old) self.old.task ≡ (if result then Some (part_of self.new) else None) }
        ensures kept { result ≡ false → part_of self.new ≡ part_of self.old }
        ensures room { GoesOn no_growth self.old self.new }
    {
        if !is_active(self.place) {
            return false;
        }
        match counter {
            Counter::Objects => {
                if !may_start(self.task) {
                    return false;
                }
                self.task = if found < OBJECT_LIMIT as u64 {
                    Task::Numbers
                } else {
                    Task::Rest
                };
                true
            }
            Counter::Cells => {
                let Task::Draws = self.task else {
                    return false;
                };
                if !self.spare.is_empty() {
                    return false;
                }
                self.task = if found < cells as u64 {
                    Task::Pool
                } else {
                    Task::Refused
                };
                true
            }
        }
    }

    /// Raises a counter, where there are so many cells.
    pub(crate) fn add_counter(
        &mut self,
        cells: u32,
        seat: Seat,
        counter: Counter,
        found: u64,
    ) -> bool
        requires room { HasNumberRoom self.old counter }
        ensures turn { reading_specs.add_counter cells seat counter found (part_of self.old) self.old.task ≡ (if result then Some (part_of self.new) else None) }
        ensures kept { result ≡ false → part_of self.new ≡ part_of self.old }
        ensures room { GoesOn (record no_growth { made = 1 }) self.old self.new }
    {
        match (counter, self.task) {
            (Counter::Objects, Task::Numbers) => self.add_object(seat, found),
            (Counter::Cells, Task::Pool) => self.add_cell(cells, found),
            _ => false,
        }
    }

    // Raises the counter of objects.
    fn add_object(&mut self, seat: Seat, found: u64) -> bool
        requires fresh { IsFresh self.old.task }
        requires room { vec_len self.old.current.made < vec_capacity self.old.current.made }
        ensures turn { (cells : ℕ) → reading_specs.add_counter cells seat Objects found (part_of self.old) Numbers ≡ (if result then Some (part_of self.new) else None) }
        ensures kept { result ≡ false → part_of self.new ≡ part_of self.old }
        ensures room { GoesOn (record no_growth { made = 1 }) self.old self.new }
    {
        if !is_active(self.place) || !is_session(seat) {
            return false;
        }
        self.task = Task::Rest;
        if found >= OBJECT_LIMIT as u64 {
            return true;
        }
        self.current.made.push_reserved(found as u32);
        true
    }

    // Raises the counter of cells.
    fn add_cell(&mut self, cells: u32, found: u64) -> bool
        requires fresh { IsFresh self.old.task }
        ensures turn { (seat : ℕ) → reading_specs.add_counter cells seat Cells found (part_of self.old) Pool ≡ (if result then Some (part_of self.new) else None) }
        ensures kept { result ≡ false → part_of self.new ≡ part_of self.old }
        ensures room { GoesOn no_growth self.old self.new }
    {
        if !is_active(self.place) {
            return false;
        }
        if found >= cells as u64 {
            self.task = Task::Refused;
            return true;
        }
        self.task = Task::Fetched;
        self.current.set_cell(OwnCell {
            cell: found as u32,
            words: blank_cell(),
        });
        true
    }

    // The last spare cell goes to the newest claim.
    fn take_spare(&mut self)
        requires some { 0 < vec_len self.old.spare }
        ensures part { part_of self.new ≡ reading_specs.with_spare (part_of self.old) }
        ensures room { GoesOn no_growth self.old self.new }
        ensures task { self.new.task ≡ self.old.task }
    {
        if let Some(own) = self.spare.pop() {
            self.current.set_cell(own);
        }
    }

    /// Loads a stamp of a version while the transaction reads and claims.
    pub(crate) fn load_active_stamp(
        &mut self,
        found: u64,
        version: VersionAt,
        word: CellWord,
    ) -> bool
        ensures turn { reading_specs.load_active_stamp found version word (part_of self.old) self.old.task ≡ (if result then Some (part_of self.new) else None) }
        ensures kept { result ≡ false → part_of self.new ≡ part_of self.old }
        ensures room { GoesOn no_growth self.old self.new }
    {
        match (word, self.task) {
            (CellWord::Overwriter, Task::Registered { version: in_hand }) => {
                self.load_overwriter(found, version, in_hand)
            }
            (
                CellWord::OverwriterSucc,
                Task::Overtaken {
                    version: in_hand,
                    overwriter,
                },
            ) => {
                if !same_version(version, in_hand) {
                    return false;
                }
                self.task = Task::Rated { version: in_hand };
                self.current.find_succ(found, overwriter);
                true
            }
            (CellWord::ReaderStamp, Task::Draws) => {
                if !same_version(version, self.current.newest_claim().version)
                    || self.spare.is_empty()
                {
                    return false;
                }
                self.take_spare();
                self.rate_claim(found);
                true
            }
            (CellWord::ReaderStamp, Task::Fetched) => {
                if !same_version(version, self.current.newest_claim().version) {
                    return false;
                }
                self.rate_claim(found);
                true
            }
            _ => false,
        }
    }

    // The overwriter's stamp of a version that is registered.
    fn load_overwriter(&mut self, found: Stamp, version: VersionAt, in_hand: VersionAt) -> bool
        requires fresh { IsFresh self.old.task }
        ensures turn { reading_specs.load_active_stamp found version Overwriter (part_of self.old) (Registered in_hand) ≡ (if result then Some (part_of self.new) else None) }
        ensures kept { result ≡ false → part_of self.new ≡ part_of self.old }
        ensures room { GoesOn no_growth self.old self.new }
    {
        if !same_version(version, in_hand) {
            return false;
        }
        self.task = if found == 0 {
            Task::Rated { version: in_hand }
        } else {
            Task::Overtaken {
                version: in_hand,
                overwriter: found,
            }
        };
        true
    }

    fn rate_claim(&mut self, found: Stamp)
        requires fresh { IsFresh self.old.task }
        ensures part { part_of self.new ≡ reading_specs.rated_claim found (part_of self.old) }
        ensures room { GoesOn no_growth self.old self.new }
    {
        self.task = Task::Copies { word: 0 };
        self.current.find_pred(found);
    }

    // A write starts to store a row.
    fn start_row(&mut self, place: usize, cell: u32, k: u8, value: u64) -> bool
        ensures turn { reading_specs.start_row place cell k value (part_of self.old) self.old.task ≡ (if result then Some (part_of self.new) else None) }
        ensures kept { result ≡ false → part_of self.new ≡ part_of self.old }
        ensures room { GoesOn no_growth self.old self.new }
    {
        if !may_start(self.task) || place >= self.current.writes.len() {
            return false;
        }
        if !is_own(cell, self.current.claim_at(place).own) || k != 0 {
            return false;
        }
        self.task = Task::Writes {
            claim: place,
            word: 1,
        };
        self.current.store_row(place, k, value, true);
        true
    }

    /// A claim whose own cell has got the row of the version overwritten again is as if no write had set its row.
    pub(crate) fn unset(&mut self, place: usize) -> bool
        ensures turn { reading_specs.unset place (part_of self.old) ≡ (if result then Some (part_of self.new) else None) }
        ensures kept { result ≡ false → part_of self.new ≡ part_of self.old }
        ensures room { GoesOn no_growth self.old self.new }
    {
        if !is_active(self.place) || !is_rest(self.task) || place >= self.current.writes.len() {
            return false;
        }
        if !has_base(&self.current.claim_at(place)) {
            return false;
        }
        self.current.drop_row(place);
        true
    }

    /// Stores a word of the row of a claim's own cell.
    pub(crate) fn store_row_word(&mut self, place: usize, cell: u32, k: u8, value: u64) -> bool
        ensures turn { reading_specs.store_row_word place cell k value (part_of self.old) self.old.task ≡ (if result then Some (part_of self.new) else None) }
        ensures kept { result ≡ false → part_of self.new ≡ part_of self.old }
        ensures room { GoesOn no_growth self.old self.new }
    {
        match self.task {
            Task::Copies { word } => self.copy_word(word, place, cell, k, value),
            Task::Writes { claim, word } => self.write_word(claim, word, place, cell, k, value),
            _ => self.start_row(place, cell, k, value),
        }
    }

    fn copy_word(&mut self, word: u8, place: usize, cell: u32, k: u8, value: u64) -> bool
        requires fresh { IsFresh self.old.task }
        ensures turn { reading_specs.store_row_word place cell k value (part_of self.old) (Copies word) ≡ (if result then Some (part_of self.new) else None) }
        ensures kept { result ≡ false → part_of self.new ≡ part_of self.old }
        ensures room { GoesOn no_growth self.old self.new }
    {
        let claim = self.current.claim_at(place);
        if place != self.current.last_claim() || !is_own(cell, claim.own) || k != word {
            return false;
        }
        if k as usize >= ROW_WORDS || value != claim.base[k as usize] {
            return false;
        }
        self.task = if word + 1 == 16 {
            Task::Rest
        } else {
            Task::Copies { word: word + 1 }
        };
        self.current.store_row(place, k, value, false);
        true
    }

    fn write_word(
        &mut self,
        claim: usize,
        word: u8,
        place: usize,
        cell: u32,
        k: u8,
        value: u64,
    ) -> bool
        requires fresh { IsFresh self.old.task }
        ensures turn { reading_specs.store_row_word place cell k value (part_of self.old) (Writes claim word) ≡ (if result then Some (part_of self.new) else None) }
        ensures kept { result ≡ false → part_of self.new ≡ part_of self.old }
        ensures room { GoesOn no_growth self.old self.new }
    {
        if place != claim || !is_own(cell, self.current.claim_at(place).own) || k != word {
            return false;
        }
        if k as usize >= ROW_WORDS {
            return false;
        }
        self.task = if word + 1 == 16 {
            Task::Rest
        } else {
            Task::Writes {
                claim,
                word: word + 1,
            }
        };
        self.current.store_row(place, k, value, true);
        true
    }
}
