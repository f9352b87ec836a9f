//! Steps after the decision, and of the end of a transaction that aborts.
ghost use Rattle.std.specs.Prelude.{◌≡◌, ◌<◌, if◌then◌else◌, false, true, Some, None, vec_len, vec_capacity};
ghost use Rattle.erm_machine.specs.Life as life_specs;
ghost use Rattle.erm_machine.specs.Seat as seat_specs;
ghost use Rattle.erm_machine.specs.Settling as settling_specs;
ghost use Rattle.erm_machine.specs.Step as step_specs;
ghost use Rattle.erm_kept.specs.Tasks.{IsEndOf, IsFresh};
ghost use Rattle.erm_seat.specs.Parts.{part_of};
ghost use Rattle.erm_seat.specs.Rooms.{no_growth, GoesOn};

use crate::SeatState;
use erm_kept::is_own;
use erm_kept::words::{
    blank_cell, end_of, head_word, is_active, is_commit, is_decided, same_version,
};
use erm_machine::{CellWord, Place, Task, Version, VersionAt};
use erm_model::{Oid, Stamp};

impl SeatState {
    fn installs(&self, raised: usize, ended: usize, step: u8) -> bool
        ensures { result ≡ settling_specs.installs raised ended step (part_of self.now) }
    {
        is_decided(self.place)
            && is_commit(self.current.decision)
            && raised == self.current.reads.len()
            && ended < self.current.writes.len()
    }

    /// Whether an install adds a version.
    pub(crate) fn adds_version(&self) -> bool
        ensures { result ≡ settling_specs.adds_version (part_of self.now) }
    {
        is_decided(self.place) && is_commit(self.current.decision)
    }

    /// The version that an install with this head adds.
    pub fn added(&self, head: u32) -> Option<Version>
        ensures { result ≡ step_specs.added head (part_of self.now) (seat_specs.end_of self.now.task) }
    {
        let Some((_, ended, _, _)) = end_of(self.task) else {
            return None;
        };
        if !self.adds_version() {
            return None;
        }
        let words = match self.current.claim_at(ended).own {
            Some(own) => own.words,
            None => blank_cell(),
        };
        Some(Version { cell: head, words })
    }

    /// A commit that goes back stores its stamp in the back word.
    pub(crate) fn store_back(&mut self, value: Stamp) -> bool
        ensures turn { life_specs.store_back value (part_of self.old) self.old.place ≡ (if result then Some (part_of self.new) else None) }
        ensures kept { result ≡ false → part_of self.new ≡ part_of self.old }
        ensures room { GoesOn no_growth self.old self.new }
    {
        let Place::Decided { .. } = self.place else {
            return false;
        };
        if !self.current.goes_back() || value != self.current.stamp {
            return false;
        }
        self.back = value;
        true
    }

    pub(crate) fn raise_reader(&mut self, version: VersionAt, value: Stamp) -> bool
        ensures turn { settling_specs.raise_reader version value (part_of self.old) self.old.task ≡ (if result then Some (part_of self.new) else None) }
        ensures kept { result ≡ false → part_of self.new ≡ part_of self.old }
        ensures room { GoesOn no_growth self.old self.new }
    {
        let Task::Ends {
            raised,
            ended,
            step,
            cleared,
        } = self.task
        else {
            return false;
        };
        if !self.adds_version() || raised >= self.current.reads.len() {
            return false;
        }
        if !same_version(version, self.current.read_at(raised).version)
            || value != self.current.stamp
        {
            return false;
        }
        self.task = Task::Ends {
            raised: raised + 1,
            ended,
            step,
            cleared,
        };
        true
    }

    fn store_head_word(&mut self, place: usize, cell: u32, word: CellWord, value: u64) -> bool
        ensures turn { settling_specs.store_head_word place cell word value (part_of self.old) self.old.task ≡ (if result then Some (part_of self.new) else None) }
        ensures kept { result ≡ false → part_of self.new ≡ part_of self.old }
        ensures room { GoesOn no_growth self.old self.new }
    {
        let Task::Ends {
            raised,
            ended,
            step,
            cleared,
        } = self.task
        else {
            return false;
        };
        if !self.installs(raised, ended, step) || place != ended {
            return false;
        }
        let claim = self.current.claim_at(place);
        if !is_own(cell, claim.own) || !head_word(step, word) || step >= 6 {
            return false;
        }
        if value != self.current.head_value(&claim, word) {
            return false;
        }
        self.task = Task::Ends {
            raised,
            ended,
            step: step + 1,
            cleared,
        };
        self.current.store_own(place, word, value);
        true
    }

    fn store_active_word(&mut self, place: usize, cell: u32, word: CellWord, value: u64) -> bool
        ensures turn { settling_specs.store_active_word place cell word value (part_of self.old) ≡ (if result then Some (part_of self.new) else None) }
        ensures kept { result ≡ false → part_of self.new ≡ part_of self.old }
        ensures room { GoesOn no_growth self.old self.new }
    {
        match word {
            CellWord::Row(k) => self.store_row_word(place, cell, k, value),
            _ => false,
        }
    }

    pub(crate) fn store_cell(&mut self, place: usize, cell: u32, word: CellWord, value: u64) -> bool
        ensures turn { settling_specs.store_cell place cell word value (part_of self.old) ≡ (if result then Some (part_of self.new) else None) }
        ensures kept { result ≡ false → part_of self.new ≡ part_of self.old }
        ensures room { GoesOn no_growth self.old self.new }
    {
        if is_active(self.place) {
            self.store_active_word(place, cell, word, value)
        } else {
            self.store_head_word(place, cell, word, value)
        }
    }

    fn mark(&mut self, nth: u8, version: VersionAt, value: Stamp, wanted: Stamp) -> bool
        requires step { nth < 255 }
        ensures turn { settling_specs.mark_overwritten nth version value wanted (part_of self.old) self.old.task ≡ (if result then Some (part_of self.new) else None) }
        ensures kept { result ≡ false → part_of self.new ≡ part_of self.old }
        ensures room { GoesOn no_growth self.old self.new }
    {
        let Task::Ends {
            raised,
            ended,
            step,
            cleared,
        } = self.task
        else {
            return false;
        };
        if !self.installs(raised, ended, step) || step != nth {
            return false;
        }
        if !same_version(version, self.current.claim_at(ended).version) || value != wanted {
            return false;
        }
        self.task = Task::Ends {
            raised,
            ended,
            step: step + 1,
            cleared,
        };
        true
    }

    pub(crate) fn store_succ(&mut self, version: VersionAt, value: Stamp) -> bool
        ensures turn { settling_specs.store_succ version value (part_of self.old) ≡ (if result then Some (part_of self.new) else None) }
        ensures kept { result ≡ false → part_of self.new ≡ part_of self.old }
        ensures room { GoesOn no_growth self.old self.new }
    {
        self.mark(6, version, value, self.current.succ)
    }

    pub(crate) fn store_overwriter(&mut self, version: VersionAt, value: Stamp) -> bool
        ensures turn { settling_specs.store_overwriter version value (part_of self.old) ≡ (if result then Some (part_of self.new) else None) }
        ensures kept { result ≡ false → part_of self.new ≡ part_of self.old }
        ensures room { GoesOn no_growth self.old self.new }
    {
        self.mark(7, version, value, self.current.stamp)
    }

    fn install_new(&mut self, oid: Oid, head: u32, end: (usize, usize, u8, usize)) -> bool
        requires end { IsEndOf self.old.task end.1 }
        ensures turn { settling_specs.install_new oid head (part_of self.old) end ≡ (if result then Some (part_of self.new) else None) }
        ensures kept { result ≡ false → part_of self.new ≡ part_of self.old }
        ensures room { GoesOn (record no_growth { spare = 1 }) self.old self.new }
    {
        let (raised, ended, step, cleared) = end;
        if !self.installs(raised, ended, step) || step != 8 {
            return false;
        }
        let claim = self.current.claim_at(ended);
        if oid != claim.version.oid || !is_own(head, claim.own) {
            return false;
        }
        self.task = Task::Ends {
            raised,
            ended: ended + 1,
            step: 0,
            cleared,
        };
        self.current.drop_entry(ended);
        true
    }

    // The claim that is next is over, and its cell a spare one.
    fn release_old(&mut self, oid: Oid, head: u32, end: (usize, usize, u8, usize)) -> bool
        requires end { IsEndOf self.old.task end.1 }
        ensures turn { settling_specs.release_old oid head (part_of self.old) end ≡ (if result then Some (part_of self.new) else None) }
        ensures kept { result ≡ false → part_of self.new ≡ part_of self.old }
        ensures room { GoesOn (record no_growth { spare = 1 }) self.old self.new }
    {
        let (raised, ended, _, cleared) = end;
        if !is_decided(self.place) && !is_active(self.place) {
            return false;
        }
        if ended >= self.current.writes.len() {
            return false;
        }
        let version = self.current.claim_at(ended).version;
        if oid != version.oid || head != version.cell {
            return false;
        }
        if let Some(own) = self.current.claim_at(ended).own {
            self.spare.push_reserved(own);
        }
        self.current.drop_entry(ended);
        self.task = Task::Ends {
            raised,
            ended: ended + 1,
            step: 0,
            cleared,
        };
        true
    }

    fn unclaim(&mut self, oid: Oid, head: u32) -> bool
        requires fresh { IsFresh self.old.task }
        ensures turn { settling_specs.unclaim oid head (part_of self.old) ≡ (if result then Some (part_of self.new) else None) }
        ensures kept { result ≡ false → part_of self.new ≡ part_of self.old }
        ensures room { GoesOn (record no_growth { spare = 1 }) self.old self.new }
    {
        if !is_active(self.place) || self.current.writes.is_empty() {
            return false;
        }
        let version = self.current.newest_claim().version;
        if oid != version.oid || head != version.cell {
            return false;
        }
        self.task = Task::Rest;
        self.current.give_up();
        true
    }

    fn install_claim(&mut self, oid: Oid, head: u32) -> bool
        ensures turn { settling_specs.install_claim oid head (part_of self.old) (seat_specs.end_of self.old.task) ≡ (if result then Some (part_of self.new) else None) }
        ensures kept { result ≡ false → part_of self.new ≡ part_of self.old }
        ensures room { GoesOn (record no_growth { spare = 1 }) self.old self.new }
    {
        let Some(end) = end_of(self.task) else {
            return false;
        };
        if self.adds_version() {
            self.install_new(oid, head, end)
        } else {
            self.release_old(oid, head, end)
        }
    }

    pub(crate) fn install(&mut self, oid: Oid, head: u32) -> bool
        ensures turn { settling_specs.install oid head (part_of self.old) self.old.task ≡ (if result then Some (part_of self.new) else None) }
        ensures kept { result ≡ false → part_of self.new ≡ part_of self.old }
        ensures room { GoesOn (record no_growth { spare = 1 }) self.old self.new }
    {
        match self.task {
            Task::Refused => self.unclaim(oid, head),
            _ => self.install_claim(oid, head),
        }
    }

    pub(crate) fn clear_reader(&mut self, version: VersionAt) -> bool
        ensures turn { settling_specs.clear_reader version (part_of self.old) (seat_specs.end_of self.old.task) ≡ (if result then Some (part_of self.new) else None) }
        ensures kept { result ≡ false → part_of self.new ≡ part_of self.old }
        ensures room { GoesOn no_growth self.old self.new }
    {
        let Some((raised, ended, step, cleared)) = end_of(self.task) else {
            return false;
        };
        if !is_decided(self.place) && !is_active(self.place) {
            return false;
        }
        if ended != self.current.writes.len() || cleared >= self.current.reads.len() {
            return false;
        }
        if is_commit(self.current.decision) && raised != self.current.reads.len() {
            return false;
        }
        if !same_version(version, self.current.read_at(cleared).version) {
            return false;
        }
        self.task = Task::Ends {
            raised,
            ended,
            step,
            cleared: cleared + 1,
        };
        true
    }
}
