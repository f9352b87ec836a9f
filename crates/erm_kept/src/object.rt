//! An object as it is kept, with all versions that it ever had.
ghost use Rattle.std.specs.Prelude.{◌≡◌, ◌+◌, ◌^◌, ◌<◌, ◌≤◌, min, None, IfOk, OnOk, vec_len, vec_capacity};
ghost use Rattle.erm_machine.specs.Core as core_specs;
ghost use Rattle.erm_machine.specs.declared.limits.TheConstants.{ANNOUNCERS};
ghost use Rattle.erm_machine.specs.Step as step_specs;
ghost use Rattle.erm_machine.specs.Words.{owner_of};
ghost use Rattle.erm_machine.specs.declared.version.CellWord.TheVariants.{Link};

use crate::words::{blank_cell, claimed, put_word, with_bit, without_bit};
use erm_machine::{ANNOUNCERS, Cell, CellWord, Kind, Version};
use erm_model::{Row, Seat};
use std::alloc::{AllocError, Global};

/// An object: its entry, all its versions, and how many of the oldest are cut off.
#[derive(Drop)]
pub struct ObjectState {
    pub entry: u64,
    pub versions: Vec<Version>,
    pub cut: usize,
    // While a transaction owns the entry there is room for the version that it installs.
    ghost room: { vec_len versions + min 1 (owner_of entry) ≤ vec_capacity versions },
}

impl ObjectState {
    ghost use Rattle.erm_kept.specs.Objects.{ChangesWord, HasObjectRoom, chain_len, object_after, object_of, object_with_word};

    /// An object as it is opened, with this row in the cell of the same number, which an entry can name.
    pub fn opened(alloc: Global, cell: u32, row: Row) -> Result<ObjectState, AllocError>
        requires { cell < 2 ^ 24 }
        ensures { IfOk result (λ o. object_of o ≡ core_specs.opened_object (λ _. row) cell) }
    {
        let mut words: Cell = blank_cell();
        words.row = row;
        let mut versions = Vec::with_capacity(alloc, 1)?;
        versions.push_reserved(Version { cell, words });
        Ok(ObjectState {
            entry: cell as u64,
            versions,
            cut: 0,
        })
    }

    /// How many versions its chain has.
    pub fn chain_len(&self) -> usize
        ensures { result ≡ chain_len (object_of self.now) }
    {
        self.versions.len().saturating_sub(self.cut)
    }

    /// The newest place of its versions.
    pub fn newest(&self) -> usize
        ensures { result ≡ core_specs.newest (object_of self.now) }
    {
        self.versions.len().saturating_sub(1)
    }

    /// The version at a place.
    #[inline(always)]
    pub fn version_at(&self, place: usize) -> Version
        ensures { result ≡ core_specs.version_at (object_of self.now) place }
    {
        match self.versions.get(place) {
            Some(version) => *version,
            None => Version {
                cell: 0,
                words: blank_cell(),
            },
        }
    }

    // Changes a word of the version at a place.
    fn set_version_word(&mut self, place: usize, word: CellWord, value: u64)
        ensures after { object_of self.new ≡ object_with_word (object_of self.old) place word value }
        ensures room { vec_capacity self.new.versions ≡ vec_capacity self.old.versions }
    {
        if place < self.versions.len() {
            put_word(word, value, &mut self.versions[place].words);
        }
    }

    // Cuts off the versions behind a place.
    fn cut_behind(&mut self, place: usize)
        ensures after { object_of self.new ≡ record (object_with_word (object_of self.old) place Link 0) { cut = place } }
        ensures room { vec_capacity self.new.versions ≡ vec_capacity self.old.versions }
    {
        self.set_version_word(place, CellWord::Link, 0);
        self.cut = place;
    }

    // Stores the entry without owner, and adds a version where there is one.
    fn install(&mut self, head: u32, added: Option<Version>)
        requires head { head < 2 ^ 24 }
        requires room { vec_len self.old.versions < vec_capacity self.old.versions }
        ensures after { object_of self.new ≡ step_specs.installed head added (object_of self.old) }
        ensures room { vec_capacity self.new.versions ≡ vec_capacity self.old.versions }
    {
        self.entry = head as u64;
        if let Some(version) = added {
            self.versions.push_reserved(version);
        }
    }

    /// What a step of this kind leaves of the object that it names.
    pub fn change(&mut self, seat: Seat, kind: Kind, found: u64, added: Option<Version>)
        requires seat { seat < ANNOUNCERS }
        requires room { HasObjectRoom self.old kind }
        ensures after { object_of self.new ≡ object_after seat kind found added (object_of self.old) }
        ensures room { vec_capacity self.new.versions ≡ vec_capacity self.old.versions }
    {
        match kind {
            Kind::Claim { seen, number, .. } => {
                if found == seen {
                    self.entry = claimed(seen, seat, number);
                } else {
                    self.entry = found;
                }
            }
            Kind::Install { head, .. } => self.install(head, added),
            Kind::SwapLink { version } => self.cut_behind(version.place),
            _ => self.change_word(seat, kind, found),
        }
    }

    // What a step leaves that changes one word of a version.
    fn change_word(&mut self, seat: Seat, kind: Kind, found: u64)
        requires seat { seat < ANNOUNCERS }
        ensures after { ChangesWord kind → object_of self.new ≡ object_after seat kind found None (object_of self.old) }
        ensures room { vec_capacity self.new.versions ≡ vec_capacity self.old.versions }
    {
        match kind {
            Kind::SetReader { version } => {
                self.set_version_word(version.place, CellWord::Readers, with_bit(found, seat))
            }
            Kind::ClearReader { version } => {
                self.set_version_word(version.place, CellWord::Readers, without_bit(found, seat))
            }
            Kind::RaiseReader { version, value } => {
                self.set_version_word(version.place, CellWord::ReaderStamp, found.max(value))
            }
            Kind::StoreSucc { version, value } => {
                self.set_version_word(version.place, CellWord::OverwriterSucc, value)
            }
            Kind::StoreOverwriter { version, value } => {
                self.set_version_word(version.place, CellWord::Overwriter, value)
            }
            _ => {}
        }
    }

    /// Room for one more version. What the object is stays.
    pub fn reserve(&mut self) -> Result<(), AllocError>
        ensures ok { OnOk result (vec_len self.new.versions < vec_capacity self.new.versions) }
        ensures room { vec_capacity self.old.versions ≤ vec_capacity self.new.versions }
        ensures same { object_of self.new ≡ object_of self.old }
    {
        self.versions.reserve(1)
    }
}
