//! Steps of settle up to the decision.
ghost use Rattle.std.specs.Prelude.{◌≡◌, ◌<◌, ◌≤◌, if◌then◌else◌, nat_eq, false, true, Some, None, vec_len, vec_capacity};
ghost use Rattle.erm_machine.specs.Settling as settling_specs;
ghost use Rattle.erm_kept.specs.Attempts.{attempt_of};
ghost use Rattle.erm_kept.specs.Tasks.{IsFresh};
ghost use Rattle.erm_machine.specs.declared.limits.TheConstants.{SESSIONS};
ghost use Rattle.erm_seat.specs.Needs.{surveyed};
ghost use Rattle.erm_seat.specs.Parts.{part_of};
ghost use Rattle.erm_seat.specs.Rooms.{no_growth, GoesOn};
ghost use Rattle.erm_machine.specs.declared.task.Task.TheVariants.{WriteClear, ReadersLeft, ReadClear, ReadOvertaken};
ghost use Rattle.erm_machine.specs.declared.version.CellWord.TheVariants.{Overwriter, OverwriterSucc};

use crate::SeatState;
use erm_kept::words::{head_of, is_active, is_sealed, owner_of, same_version, without_bit};
use erm_machine::{CellWord, Task, VersionAt};
use erm_model::{Oid, Seat, Stamp};

// Whether settle may begin, or begin anew: it stores no words of the block yet.
fn may_settle(task: Task) -> bool
    ensures may { result ≡ settling_specs.may_settle task }
    ensures fresh { result ≡ true → IsFresh task }
{
    match task {
        Task::Rest
        | Task::Settles { .. }
        | Task::ReadOwned { .. }
        | Task::ReadClear { .. }
        | Task::ReadOvertaken { .. }
        | Task::ReadersLeft { .. }
        | Task::WriteClear { .. }
        | Task::WriteMade { .. } => true,
        _ => false,
    }
}

// What a load of the reader bits leads to.
fn after_readers(write: usize, bits: u64) -> Task
    ensures task { result ≡ (if nat_eq bits 0 then WriteClear write else ReadersLeft write bits) }
    ensures fresh { IsFresh result }
    ensures survey { surveyed result ≤ SESSIONS }
{
    if bits == 0 {
        Task::WriteClear { write }
    } else {
        Task::ReadersLeft { write, bits }
    }
}

impl SeatState {
    /// Settle begins, or begins anew where it waited, once the ring has room for the block.
    pub(crate) fn load_flushed_to_settle(&mut self, found: Stamp)
        ensures part { part_of self.new ≡ settling_specs.load_flushed_to_settle found (part_of self.old) }
        ensures room { GoesOn no_growth self.old self.new }
    {
        if is_sealed(self.place) && may_settle(self.task) && self.current.has_room(found) {
            self.task = Task::Settles {
                reads: 0,
                writes: 0,
            };
        }
    }

    pub(crate) fn load_read_entry(&mut self, seat: Seat, oid: Oid, found: u64) -> bool
        ensures turn { settling_specs.load_read_entry seat oid found (part_of self.old) self.old.task ≡ (if result then Some (part_of self.new) else None) }
        ensures kept { result ≡ false → part_of self.new ≡ part_of self.old }
        ensures room { GoesOn no_growth self.old self.new }
    {
        let Task::Settles { reads, .. } = self.task else {
            return false;
        };
        if !is_sealed(self.place) || reads >= self.current.reads.len() {
            return false;
        }
        let version = self.current.read_at(reads).version;
        if oid != version.oid {
            return false;
        }
        let owner = owner_of(found);
        self.task = if head_of(found) == version.cell && owner != 0 && owner != seat {
            Task::ReadOwned { read: reads, owner }
        } else {
            Task::ReadClear { read: reads }
        };
        true
    }

    pub(crate) fn load_readers(&mut self, seat: Seat, version: VersionAt, found: u64) -> bool
        requires seat { seat < 64 }
        ensures turn { settling_specs.load_readers seat version found (part_of self.old) self.old.task ≡ (if result then Some (part_of self.new) else None) }
        ensures kept { result ≡ false → part_of self.new ≡ part_of self.old }
        ensures room { GoesOn no_growth self.old self.new }
    {
        let Task::Settles { reads, writes } = self.task else {
            return false;
        };
        if !is_sealed(self.place) || reads != self.current.reads.len() {
            return false;
        }
        if writes >= self.current.writes.len() {
            return false;
        }
        if !same_version(version, self.current.claim_at(writes).version) {
            return false;
        }
        self.task = after_readers(writes, without_bit(found, seat));
        true
    }

    fn load_settled_stamp(&mut self, found: Stamp, version: VersionAt, word: CellWord) -> bool
        ensures turn { settling_specs.load_settled_stamp found version word (part_of self.old) self.old.task ≡ (if result then Some (part_of self.new) else None) }
        ensures kept { result ≡ false → part_of self.new ≡ part_of self.old }
        ensures room { GoesOn no_growth self.old self.new }
    {
        match (word, self.task) {
            (CellWord::Overwriter, Task::ReadClear { read }) => {
                self.load_read_overwriter(found, version, read)
            }
            (CellWord::OverwriterSucc, Task::ReadOvertaken { read, overwriter }) => {
                self.load_read_succ(found, version, read, overwriter)
            }
            (CellWord::Stamp, Task::WriteClear { write }) => {
                if !same_version(version, self.current.claim_at(write).version) {
                    return false;
                }
                self.task = Task::WriteMade { write };
                self.current.find_pred(found);
                true
            }
            (CellWord::ReaderStamp, Task::WriteMade { write }) => {
                if write >= self.current.writes.len()
                    || !same_version(version, self.current.claim_at(write).version)
                {
                    return false;
                }
                self.task = Task::Settles {
                    reads: self.current.reads.len(),
                    writes: write + 1,
                };
                self.current.find_pred(found);
                true
            }
            _ => false,
        }
    }

    fn load_read_overwriter(&mut self, found: Stamp, version: VersionAt, read: usize) -> bool
        requires fresh { IsFresh self.old.task }
        ensures turn { settling_specs.load_settled_stamp found version Overwriter (part_of self.old) (ReadClear read) ≡ (if result then Some (part_of self.new) else None) }
        ensures kept { result ≡ false → part_of self.new ≡ part_of self.old }
        ensures room { GoesOn no_growth self.old self.new }
    {
        if read >= self.current.reads.len()
            || !same_version(version, self.current.read_at(read).version)
        {
            return false;
        }
        self.task = if 0 < found && found < self.current.stamp {
            Task::ReadOvertaken {
                read,
                overwriter: found,
            }
        } else {
            Task::Settles {
                reads: read + 1,
                writes: 0,
            }
        };
        true
    }

    fn load_read_succ(
        &mut self,
        found: Stamp,
        version: VersionAt,
        read: usize,
        overwriter: Stamp,
    ) -> bool
        requires fresh { IsFresh self.old.task }
        ensures turn { settling_specs.load_settled_stamp found version OverwriterSucc (part_of self.old) (ReadOvertaken read overwriter) ≡ (if result then Some (part_of self.new) else None) }
        ensures kept { result ≡ false → part_of self.new ≡ part_of self.old }
        ensures room { GoesOn no_growth self.old self.new }
    {
        if read >= self.current.reads.len()
            || !same_version(version, self.current.read_at(read).version)
        {
            return false;
        }
        self.task = Task::Settles {
            reads: read + 1,
            writes: 0,
        };
        self.current.find_succ(found, overwriter);
        true
    }

    pub(crate) fn load_stamp(&mut self, found: Stamp, version: VersionAt, word: CellWord) -> bool
        ensures turn { settling_specs.load_stamp found version word (part_of self.old) ≡ (if result then Some (part_of self.new) else None) }
        ensures kept { result ≡ false → part_of self.new ≡ part_of self.old }
        ensures room { GoesOn no_growth self.old self.new }
    {
        if is_active(self.place) {
            self.load_active_stamp(found, version, word)
        } else if is_sealed(self.place) {
            self.load_settled_stamp(found, version, word)
        } else {
            false
        }
    }

    pub(crate) fn store_ring(&mut self, at: Stamp, value: u64) -> bool
        ensures turn { settling_specs.store_ring at value (part_of self.old) (settling_specs.filled (attempt_of self.old.current) self.old.task) ≡ (if result then Some (part_of self.new) else None) }
        ensures kept { result ≡ false → part_of self.new ≡ part_of self.old }
        ensures room { GoesOn (record no_growth { words = 1 }) self.old self.new }
    {
        let Some(words) = self.current.filled(self.task) else {
            return false;
        };
        if !is_sealed(self.place) || at <= self.current.stamp {
            return false;
        }
        if at - self.current.stamp - 1 != words || words >= self.current.size {
            return false;
        }
        if words + 1 >= self.current.size {
            return false;
        }
        self.task = Task::Fills { words: words + 1 };
        self.current.block.push_reserved(value);
        true
    }
}
