//! Steps of a read, and of the walks of reads and cuts.
ghost use Rattle.std.specs.Prelude.{◌≡◌, ◌<◌, ◌≤◌, if◌then◌else◌, nat_eq, false, true, Some, None, vec_len, vec_capacity};
ghost use Rattle.erm_machine.specs.Reading as reading_specs;
ghost use Rattle.erm_kept.specs.Objects.{object_of};
ghost use Rattle.erm_kept.specs.Tasks.{IsFresh};
ghost use Rattle.erm_machine.specs.declared.limits.TheConstants.{SESSIONS};
ghost use Rattle.erm_seat.specs.Needs.{surveyed};
ghost use Rattle.erm_seat.specs.Parts.{part_of};
ghost use Rattle.erm_seat.specs.Rooms.{no_growth, GoesOn};
ghost use Rattle.erm_machine.specs.declared.task.Task.TheVariants.{Walks, CutWalks, SafeWalks};

use crate::SeatState;
use erm_kept::ObjectState;
use erm_kept::words::{head_of, is_active, is_safe, is_session, may_start, owner_of, same_version};
use erm_machine::{CellWord, READ_LIMIT, Read, Task, VersionAt};
use erm_model::{Oid, Seat, Stamp};

// The version at the head of an object's chain.
fn head_version(oid: Oid, entry: u64, object: &ObjectState) -> VersionAt
    ensures { result ≡ reading_specs.head_version oid entry (object_of object.now) }
{
    VersionAt {
        oid,
        place: object.newest(),
        cell: head_of(entry),
    }
}

/// The next older version, by the link found.
pub fn older(version: VersionAt, link: u64) -> VersionAt
    requires { 0 < link }
    ensures { result ≡ reading_specs.older version link }
{
    VersionAt {
        oid: version.oid,
        place: version.place.saturating_sub(1),
        cell: ((link - 1) % (1 << 32)) as u32,
    }
}

/// What a load of an entry leads to.
pub fn entered(seat: Seat, oid: Oid, entry: u64, object: &ObjectState) -> Task
    ensures task { result ≡ reading_specs.entered seat oid entry (object_of object.now) }
    ensures fresh { IsFresh result }
    ensures survey { surveyed result ≤ SESSIONS }
{
    let owner = owner_of(entry);
    if owner == 0 {
        Task::Walks {
            version: head_version(oid, entry, object),
            head: Some(entry),
        }
    } else if owner == seat {
        Task::Claimed {
            version: head_version(oid, entry, object),
        }
    } else {
        Task::Owned { oid, owner }
    }
}

/// What an exchange leads to that met another entry than that of the version seen.
pub fn lost(seat: Seat, oid: Oid, entry: u64, seen: VersionAt, object: &ObjectState) -> Task
    ensures task { result ≡ reading_specs.lost seat oid entry seen (object_of object.now) }
    ensures fresh { IsFresh result }
    ensures survey { surveyed result ≤ SESSIONS }
{
    if owner_of(entry) == 0 && head_of(entry) != seen.cell {
        Task::Passed {
            version: head_version(oid, entry, object),
        }
    } else {
        entered(seat, oid, entry, object)
    }
}

// What a load of an entry leads to once its owner was found clear.
fn entered_again(seat: Seat, oid: Oid, cleared: Oid, entry: u64, object: &ObjectState) -> Task
    ensures fresh { IsFresh result }
    ensures survey { surveyed result ≤ SESSIONS }
    ensures task { result ≡ (if nat_eq oid cleared then Walks (reading_specs.head_version oid entry (object_of object.now)) None else reading_specs.entered seat oid entry (object_of object.now)) }
{
    if oid == cleared {
        Task::Walks {
            version: head_version(oid, entry, object),
            head: None,
        }
    } else {
        entered(seat, oid, entry, object)
    }
}

// Whether the row of the version in hand may be loaded.
fn may_load_row(version: VersionAt, task: Task) -> bool
    ensures { result ≡ reading_specs.may_load_row version task }
{
    match task {
        Task::Found {
            version: in_hand,
            ..
        }
        | Task::Registered { version: in_hand }
        | Task::Overtaken {
            version: in_hand,
            ..
        }
        | Task::Rated { version: in_hand }
        | Task::SafeFound { version: in_hand } => same_version(version, in_hand),
        _ => false,
    }
}

impl SeatState {
    pub(crate) fn load_entry(
        &mut self,
        seat: Seat,
        oid: Oid,
        found: u64,
        object: &ObjectState,
    ) -> bool
        ensures turn { reading_specs.load_entry seat oid found (object_of object.now) (part_of self.old) self.old.task ≡ (if result then Some (part_of self.new) else None) }
        ensures kept { result ≡ false → part_of self.new ≡ part_of self.old }
        ensures room { GoesOn no_growth self.old self.new }
    {
        if !is_active(self.place) {
            return false;
        }
        if let Task::Cleared { oid: cleared } = self.task {
            self.task = entered_again(seat, oid, cleared, found, object);
            return true;
        }
        if is_safe(self.task) {
            self.task = Task::SafeWalks {
                version: head_version(oid, found, object),
            };
            return true;
        }
        if !may_start(self.task) {
            return false;
        }
        self.task = entered(seat, oid, found, object);
        true
    }

    pub(crate) fn set_reader(
        &mut self,
        seat: Seat,
        version: VersionAt,
        object: &ObjectState,
    ) -> bool
        requires room { vec_len self.old.current.reads < vec_capacity self.old.current.reads }
        ensures turn { reading_specs.set_reader seat version (object_of object.now) (part_of self.old) self.old.task ≡ (if result then Some (part_of self.new) else None) }
        ensures kept { result ≡ false → part_of self.new ≡ part_of self.old }
        ensures room { GoesOn (record no_growth { reads = 1 }) self.old self.new }
    {
        let Task::Found {
            version: found,
            stamp,
            ..
        } = self.task
        else {
            return false;
        };
        if !is_active(self.place) || !is_session(seat) || !same_version(version, found) {
            return false;
        }
        if self.current.reads.len() >= READ_LIMIT || self.current.has_read(version.oid) {
            return false;
        }
        let row = object.version_at(version.place).words.row;
        self.current.reads.push_reserved(Read {
            version,
            stamp,
            row,
        });
        self.task = Task::Registered { version };
        self.current.find_pred(stamp);
        true
    }

    fn load_walked_stamp(&mut self, found: Stamp, version: VersionAt) -> bool
        ensures turn { reading_specs.load_walked_stamp found version (part_of self.old) self.old.task ≡ (if result then Some (part_of self.new) else None) }
        ensures kept { result ≡ false → part_of self.new ≡ part_of self.old }
        ensures room { GoesOn no_growth self.old self.new }
    {
        match self.task {
            Task::Walks {
                version: in_hand,
                head,
            } => {
                if !same_version(version, in_hand) {
                    return false;
                }
                self.task = if found < self.current.begin {
                    Task::Found {
                        version: in_hand,
                        stamp: found,
                        head,
                    }
                } else {
                    Task::Passed { version: in_hand }
                };
                true
            }
            Task::CutWalks {
                version: in_hand,
                horizon,
            } => self.load_cut_stamp(found, version, in_hand, horizon),
            Task::SafeWalks { version: in_hand } => self.load_safe_stamp(found, version, in_hand),
            Task::Passed { version: in_hand } => same_version(version, in_hand),
            _ => false,
        }
    }

    fn load_safe_stamp(&mut self, found: Stamp, version: VersionAt, in_hand: VersionAt) -> bool
        requires fresh { IsFresh self.old.task }
        ensures turn { reading_specs.load_walked_stamp found version (part_of self.old) (SafeWalks in_hand) ≡ (if result then Some (part_of self.new) else None) }
        ensures kept { result ≡ false → part_of self.new ≡ part_of self.old }
        ensures room { GoesOn no_growth self.old self.new }
    {
        if !same_version(version, in_hand) {
            return false;
        }
        self.task = if found < self.current.begin {
            Task::SafeFound { version: in_hand }
        } else {
            Task::SafePassed { version: in_hand }
        };
        true
    }

    fn load_cut_stamp(
        &mut self,
        found: Stamp,
        version: VersionAt,
        in_hand: VersionAt,
        horizon: Stamp,
    ) -> bool
        requires fresh { IsFresh self.old.task }
        ensures turn { reading_specs.load_walked_stamp found version (part_of self.old) (CutWalks in_hand horizon) ≡ (if result then Some (part_of self.new) else None) }
        ensures kept { result ≡ false → part_of self.new ≡ part_of self.old }
        ensures room { GoesOn no_growth self.old self.new }
    {
        if !same_version(version, in_hand) {
            return false;
        }
        self.task = if found < horizon {
            Task::CutFound {
                version: in_hand,
                horizon,
            }
        } else {
            Task::CutPassed {
                version: in_hand,
                horizon,
            }
        };
        true
    }

    fn load_walked_link(&mut self, found: u64, version: VersionAt) -> bool
        ensures turn { reading_specs.load_walked_link found version (part_of self.old) self.old.task ≡ (if result then Some (part_of self.new) else None) }
        ensures kept { result ≡ false → part_of self.new ≡ part_of self.old }
        ensures room { GoesOn no_growth self.old self.new }
    {
        match self.task {
            Task::Passed { version: in_hand } => {
                if !same_version(version, in_hand) || found == 0 || in_hand.place == 0 {
                    return false;
                }
                self.task = Task::Walks {
                    version: older(in_hand, found),
                    head: None,
                };
                true
            }
            Task::SafePassed { version: in_hand } => {
                if !same_version(version, in_hand) || found == 0 || in_hand.place == 0 {
                    return false;
                }
                self.task = Task::SafeWalks {
                    version: older(in_hand, found),
                };
                true
            }
            Task::CutPassed {
                version: in_hand,
                horizon,
            } => {
                if !same_version(version, in_hand) {
                    return false;
                }
                self.task = if found == 0 {
                    self.after_cut()
                } else {
                    Task::CutWalks {
                        version: older(in_hand, found),
                        horizon,
                    }
                };
                true
            }
            _ => false,
        }
    }

    pub(crate) fn load_cell(&mut self, found: u64, version: VersionAt, word: CellWord) -> bool
        ensures turn { reading_specs.load_cell found version word (part_of self.old) ≡ (if result then Some (part_of self.new) else None) }
        ensures kept { result ≡ false → part_of self.new ≡ part_of self.old }
        ensures room { GoesOn no_growth self.old self.new }
    {
        if !is_active(self.place) {
            return false;
        }
        match word {
            CellWord::Stamp => self.load_walked_stamp(found, version),
            CellWord::Link => self.load_walked_link(found, version),
            CellWord::Row(_) => { may_load_row(version, self.task) || self.may_copy_row(version) }
            _ => false,
        }
    }
}
