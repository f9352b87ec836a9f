//! A disk in memory.
ghost use Rattle.std.specs.Prelude.{◌≡◌, ◌≤◌, ◌↔◌, ◌⊎◌, ◌∷◌, [], if◌then◌else◌, List, length, take, IsErr, IfOk, IfSome, OnOk, OnErr, Some};
ghost use Rattle.std.specs.List.Sorted.{IsPermutation};
ghost use Rattle.erm_outside.specs.Faults.{next};
ghost use Rattle.erm_outside.specs.declared.disk.File.{File as DiskFile};
ghost use Rattle.erm_outside.specs.Disk.{Change, same_file, changes_of, bytes_after, contents as contents_after, patched, IsImage, IsSettled, IsNextSegment, MayTry, OnlyWaits, Reads, RemovalsLast, Same};
ghost use Rattle.erm_outside.specs.Disk.Change.{Wrote, Tried, Synced, Removed};
ghost use Rattle.erm_outside_mem.specs.Calls.{no_calls, IsToFail, CountsCall, with_fault};
ghost use Rattle.erm_outside_mem.specs.declared.picks.Pick.TheVariants.{All};
ghost use Rattle.erm_outside_mem.specs.Picks.{landed as landed_of, removed_by, played, picked};
ghost use Rattle.erm_outside_mem.specs.DiskNotes.{change_of, empty_disk, front_of, DidAll, Leaves, WantsMemory, WantsRoom};

use crate::calls::{Calls, one_more};
use crate::crash::play;
use crate::files::{Files, contents, next_segment, read_from, write_file};
use crate::notes::{Done, Work, forget, note, note_removals};
use crate::picks::{Pick, landed};
use erm_outside::{Disk, Failed, File};
use std::alloc::{AllocError, Global};
use std::collections::BTreeMap;
use std::marker::Model;

/// A disk that keeps its files in memory, and tells all that was done to it.
///
/// A call fails where it is to fail, and else only where memory is refused, or a write would end behind 2^64 - 1: then it
/// does nothing, and the refusal is counted beside the fault. `len`, `read` and `next_segment` take no memory; `sync` and
/// `remove` take some for a note, and none while there is room for it; so does `sync_removals` for each removal noted, and where it is refused
/// it may have waited for some.
#[derive(Drop)]
pub struct MemDisk {
    alloc: Global,
    files: Files,
    done: Vec<Done>,
    fronts: BTreeMap<u64, usize>,
    calls: Calls,
    refused: u64,
}

impl Model for MemDisk {
    ghost use Rattle.std.specs.Prelude.{vec_capacity};
    ghost use Rattle.erm_outside_mem.specs.DiskNotes.{DiskState, steps_of, IsKept};

    ghost Value = { DiskState };

    ghost view = { λ d. record { steps = steps_of d.done.items; room = vec_capacity d.done; fronts = d.fronts.entries; calls = d.calls; refused = d.refused } };

    ghost invariant = { λ d. IsKept d.files (steps_of d.done.items) };
}

impl MemDisk {
    /// A disk whose files are all empty.
    pub fn new(alloc: Global) -> Self
        ensures { result ≡ empty_disk }
    {
        MemDisk {
            alloc,
            files: BTreeMap::new(alloc),
            done: Vec::new(alloc),
            fronts: BTreeMap::new(alloc),
            calls: Calls::new(alloc),
            refused: 0,
        }
    }

    /// A disk like that of [`new`](Self::new) with room to note so many changes: up to them a sync or a removal takes no
    /// memory.
    pub fn with_room(alloc: Global, room: usize) -> Result<Self, AllocError>
        ensures { IfOk result (λ disk. disk ≡ record empty_disk { room = room }) }
    {
        let done = Vec::with_capacity(alloc, room)?;
        Ok(MemDisk {
            alloc,
            files: BTreeMap::new(alloc),
            done,
            fronts: BTreeMap::new(alloc),
            calls: Calls::new(alloc),
            refused: 0,
        })
    }

    /// How often memory was refused to a call. Where this stays, each call did what it was to do.
    pub fn refused(&self) -> u64
        ensures { result ≡ self.now.refused }
    {
        self.refused
    }

    /// The same disk, of which these calls fail: by their numbers from 1, in place of those named before.
    pub fn failing(mut self, calls: Vec<u64>) -> Self
        ensures failing { IsPermutation calls.items result.calls.failing }
        ensures others { result
            ≡ record self { calls = record self.calls { failing = result.calls.failing } } }
    {
        self.calls.set_failing(calls);
        self
    }

    /// The same disk, of which a write that is to fail leaves so many of its bytes from the front, by the number of the
    /// call, in place of what was said before. Of a write that isn't named nothing is done.
    pub fn leaving(mut self, fronts: BTreeMap<u64, usize>) -> Self
        ensures { result ≡ record self { fronts = fronts.entries } }
    {
        self.fronts = fronts;
        self
    }

    /// The same disk, of which each call behind the first `calls` fails.
    pub fn stop_at(mut self, calls: u64) -> Self
        ensures { result ≡ record self { calls = record self.calls { last = Some calls } } }
    {
        self.calls.set_last(calls);
        self
    }

    // Notes what is done to a file, and writes these bytes to it.
    fn put(&mut self, file: File, at: u64, bytes: &[u8], work: Work) -> Result<(), AllocError>
        requires writes { (before : List Change) → bytes_after (change_of work ∷ before) ≡ patched (bytes_after before) at bytes.now }
        ensures told { OnOk result (self.new ≡ record self.old { room = self.new.room; steps = record { file = file; change = change_of work } ∷ self.old.steps }) }
        ensures none { OnErr result (self.new ≡ record self.old { room = self.new.room }) }
        ensures room { self.old.room ≤ self.new.room }
    {
        note(&mut self.done, file, work)?;
        match write_file(self.alloc, &mut self.files, file, at, bytes) {
            Ok(()) => Ok(()),
            Err(error) => {
                forget(&mut self.done);
                Err(error)
            }
        }
    }

    // Counts a refusal of memory.
    fn count_refusal(&mut self)
        ensures { self.new ≡ record self.old { refused = next self.old.refused } }
    {
        self.refused = one_more(self.refused);
    }

    // Counts a refusal of memory, for which the call fails that has begun.
    fn refuse(&mut self) -> Failed
        ensures { self.new ≡ record self.old { calls = record self.old.calls { faults = next self.old.calls.faults }; refused = next self.old.refused } }
    {
        self.count_refusal();
        self.calls.fail()
    }

    // Notes what is done to a file, where that changes no bytes.
    fn note(&mut self, file: File, work: Work) -> Result<(), AllocError>
        requires keeps { (before : List Change) → bytes_after (change_of work ∷ before) ≡ bytes_after before }
        ensures told { OnOk result (self.new ≡ record self.old { room = self.new.room; steps = record { file = file; change = change_of work } ∷ self.old.steps }) }
        ensures none { OnErr result (self.new ≡ record self.old { room = self.new.room }) }
        ensures full { OnErr result (self.old.room ≤ length self.old.steps) }
        ensures room { self.old.room ≤ self.new.room }
    {
        note(&mut self.done, file, work)
    }

    // Notes a wait for each file that was removed once.
    fn note_removals(&mut self) -> Result<(), AllocError>
        ensures waits { OnlyWaits self.old.steps self.new.steps }
        ensures last { OnOk result (RemovalsLast self.new.steps) }
        ensures full { OnErr result (self.old.room ≤ length self.new.steps) }
        ensures others { self.new ≡ record self.old { steps = self.new.steps; room = self.new.room } }
        ensures room { self.old.room ≤ self.new.room }
    {
        note_removals(&mut self.done)
    }

    // Removes a file, and notes it.
    fn clear(&mut self, file: File) -> Result<(), AllocError>
        ensures told { OnOk result (self.new ≡ record self.old { room = self.new.room; steps = record { file = file; change = Removed } ∷ self.old.steps }) }
        ensures none { OnErr result (self.new ≡ record self.old { room = self.new.room }) }
        ensures full { OnErr result (self.old.room ≤ length self.old.steps) }
        ensures room { self.old.room ≤ self.new.room }
    {
        note(&mut self.done, file, Work::Removed)?;
        let _ = self.files.remove(&file);
        Ok(())
    }

    // Writes bytes, and notes it.
    fn put_whole(&mut self, file: File, at: u64, bytes: &[u8]) -> Result<(), AllocError>
        ensures told { OnOk result (self.new ≡ record self.old { room = self.new.room; steps = record { file = file; change = Wrote at bytes.now } ∷ self.old.steps }) }
        ensures none { OnErr result (self.new ≡ record self.old { room = self.new.room }) }
        ensures room { self.old.room ≤ self.new.room }
    {
        let copy = Vec::from_slice(self.alloc, bytes)?;
        self.put(file, at, bytes, Work::Wrote { at, bytes: copy })
    }

    // Writes a front of bytes, and notes that no more was done of a write of all of them.
    fn put_front(
        &mut self,
        file: File,
        at: u64,
        bytes: &[u8],
        front: usize,
    ) -> Result<(), AllocError>
        ensures told { OnOk result (self.new ≡ record self.old { room = self.new.room; steps = record { file = file; change = Tried at bytes.now (take front bytes.now) } ∷ self.old.steps }) }
        ensures none { OnErr result (self.new ≡ record self.old { room = self.new.room }) }
        ensures room { self.old.room ≤ self.new.room }
    {
        let copy = Vec::from_slice(self.alloc, bytes)?;
        let written = &bytes[..front.min(bytes.len())];
        let work = Work::Tried {
            at,
            bytes: copy,
            left: front,
        };
        self.put(file, at, written, work)
    }

    // Writes bytes, and waits until they last.
    fn put_lasting(&mut self, file: File, at: u64, bytes: &[u8]) -> Result<(), AllocError>
        ensures lands { OnOk result ((other : DiskFile) → contents_after self.new.steps other
            ≡ (if same_file file other then patched (contents_after self.old.steps other) at bytes.now else contents_after self.old.steps other)) }
        ensures settled { OnOk result (IsSettled self.old.steps → IsSettled self.new.steps) }
        ensures others { self.new ≡ record self.old { steps = self.new.steps; room = self.new.room } }
    {
        self.put_whole(file, at, bytes)?;
        self.note(file, Work::Synced)
    }

    // Removes a file, and waits until that lasts.
    fn clear_lasting(&mut self, file: File) -> Result<(), AllocError>
        ensures lands { OnOk result ((other : DiskFile) → contents_after self.new.steps other
            ≡ (if same_file file other then [] else contents_after self.old.steps other)) }
        ensures settled { OnOk result (IsSettled self.old.steps → IsSettled self.new.steps) }
        ensures others { self.new ≡ record self.old { steps = self.new.steps; room = self.new.room } }
    {
        self.clear(file)?;
        self.note(file, Work::Synced)
    }

    // Does a removal of which so much landed.
    fn land_removal(&mut self, file: File, pick: Pick) -> Result<(), AllocError>
        ensures lands { OnOk result ((other : DiskFile) → contents_after self.new.steps other
            ≡ (if same_file file other then removed_by pick (contents_after self.old.steps other) else contents_after self.old.steps other)) }
        ensures settled { OnOk result (IsSettled self.old.steps → IsSettled self.new.steps) }
        ensures others { self.new ≡ record self.old { steps = self.new.steps; room = self.new.room } }
    {
        match pick {
            Pick::All => self.clear_lasting(file),
            Pick::Nothing | Pick::Marks => Ok(()),
        }
    }

    // Does a write of `count` bytes that left some, of which so much landed.
    fn land_write(
        &mut self,
        file: File,
        at: u64,
        left: &[u8],
        count: usize,
        pick: Pick,
    ) -> Result<(), AllocError>
        ensures lands { OnOk result ((other : DiskFile) → contents_after self.new.steps other
            ≡ (if same_file file other then patched (contents_after self.old.steps other) at (landed_of pick left.now count) else contents_after self.old.steps other)) }
        ensures settled { OnOk result (IsSettled self.old.steps → IsSettled self.new.steps) }
        ensures others { self.new ≡ record self.old { steps = self.new.steps; room = self.new.room } }
    {
        let bytes = landed(self.alloc, pick, left, count)?;
        self.put_lasting(file, at, &bytes)
    }

    /// Does what a note says, of which so much landed, and waits until that lasts.
    pub(crate) fn land(&mut self, done: &Done, pick: Pick) -> Result<(), AllocError>
        ensures lands { OnOk result ((other : DiskFile) → contents_after self.new.steps other
            ≡ (if same_file done.now.file other then played pick (change_of done.now.work) (contents_after self.old.steps other) else contents_after self.old.steps other)) }
        ensures settled { OnOk result (IsSettled self.old.steps → IsSettled self.new.steps) }
        ensures others { self.new ≡ record self.old { steps = self.new.steps; room = self.new.room } }
    {
        match &done.work {
            Work::Wrote { at, bytes } => self.land_write(done.file, *at, bytes, bytes.len(), pick),
            Work::Tried { at, bytes, left } => {
                let front = &bytes[..(*left).min(bytes.len())];
                self.land_write(done.file, *at, front, bytes.len(), pick)
            }
            Work::Removed => self.land_removal(done.file, pick),
            Work::Synced => Ok(()),
        }
    }

    /// A disk that holds an image that a crash now may leave: what was waited for, and of the rest what the pick says.
    /// Nothing is pending on it, and no call of it is to fail.
    pub fn image(&self, pick: Pick) -> Result<MemDisk, AllocError>
        ensures image { IfOk result (λ disk. IsImage self.now.steps (contents_after disk.steps)) }
        ensures picked { IfOk result (λ disk. (file : DiskFile) → contents_after disk.steps file ≡ picked pick (changes_of file self.now.steps)) }
        ensures all { IfOk result (λ disk. pick ≡ All → Same (contents_after disk.steps) (contents_after self.now.steps)) }
        ensures settled { IfOk result (λ disk. IsSettled disk.steps) }
        ensures fresh { IfOk result (λ disk. disk ≡ record empty_disk { steps = disk.steps; room = disk.room }) }
    {
        play(self.alloc, &self.done, pick)
    }

    // Does what is left of a write that fails.
    fn tear(&mut self, file: File, at: u64, bytes: &[u8])
        ensures leaves { Leaves (front_of self.old.fronts self.old.calls.count) file at bytes.now self.old self.new }
        ensures tries { MayTry file at bytes.now (Some self.old.steps) (Some self.new.steps) }
        ensures others { self.new ≡ record self.old { steps = self.new.steps; room = self.new.room; refused = self.new.refused } }
        ensures room { self.old.room ≤ self.new.room }
    {
        let call = self.calls.count();
        if let Some(front) = self.fronts.get(&call).copied()
            && self.put_front(file, at, bytes, front).is_err()
        {
            self.count_refusal();
        }
    }
}

impl Disk for MemDisk {
    ghost faults = { λ disk. disk.calls.faults };

    ghost told = { λ disk. Some disk.steps };

    fn len(&mut self, file: File) -> Result<u64, Failed>
        ensures fails { IsErr result ↔ IsToFail self.old.calls }
        ensures counted { CountsCall self.old.calls self.new.calls result }
        ensures others { self.new ≡ record self.old { calls = self.new.calls } }
        ensures length { IfOk result (λ n. n ≡ length (contents_after self.old.steps file)) }
    {
        self.calls.begin()?;
        Ok(contents(&self.files, file).len() as u64)
    }

    fn read(&mut self, file: File, at: u64, buf: &mut [u8]) -> Result<usize, Failed>
        ensures within { IfOk result (λ n. n ≤ length buf.old) }
        ensures fails { IsErr result ↔ IsToFail self.old.calls }
        ensures counted { CountsCall self.old.calls self.new.calls result }
        ensures others { self.new ≡ record self.old { calls = self.new.calls } }
        ensures bytes { IfOk result (λ n. Reads (contents_after self.old.steps file) at n buf.old buf.new) }
        ensures unread { OnErr result (buf.new ≡ buf.old) }
    {
        self.calls.begin()?;
        Ok(read_from(contents(&self.files, file), at, buf))
    }

    fn next_segment(&mut self, from: u64) -> Result<Option<u64>, Failed>
        ensures fails { IsErr result ↔ IsToFail self.old.calls }
        ensures counted { CountsCall self.old.calls self.new.calls result }
        ensures others { self.new ≡ record self.old { calls = self.new.calls } }
        ensures above { IfOk result (λ found. IfSome found (λ n. from ≤ n)) }
        ensures next { IfOk result (λ found. IsNextSegment (contents_after self.old.steps) from found) }
    {
        self.calls.begin()?;
        Ok(next_segment(&self.files, from))
    }

    fn write(&mut self, file: File, at: u64, bytes: &[u8]) -> Result<(), Failed>
        ensures fails { IsToFail self.old.calls → IsErr result }
        ensures cause { IsErr result → IsToFail self.old.calls ⊎ WantsMemory self.old self.new }
        ensures counted { CountsCall self.old.calls self.new.calls result }
        ensures others { self.new ≡ record self.old { steps = self.new.steps; room = self.new.room; calls = self.new.calls; refused = self.new.refused } }
        ensures room { self.old.room ≤ self.new.room }
        ensures told { OnOk result (DidAll (record { file = file; change = Wrote at bytes.now } ∷ self.old.steps) self.old self.new) }
        ensures left { IsToFail self.old.calls → Leaves (front_of self.old.fronts (next self.old.calls.count)) file at bytes.now self.old self.new }
        ensures tried { OnErr result (MayTry file at bytes.now (Some self.old.steps) (Some self.new.steps)) }
    {
        if let Err(failed) = self.calls.begin() {
            self.tear(file, at, bytes);
            return Err(failed);
        }
        match self.put_whole(file, at, bytes) {
            Ok(()) => Ok(()),
            Err(_) => Err(self.refuse()),
        }
    }

    fn sync(&mut self, file: File) -> Result<(), Failed>
        ensures fails { IsToFail self.old.calls → IsErr result × DidAll self.old.steps self.old self.new }
        ensures cause { IsErr result → IsToFail self.old.calls ⊎ (WantsMemory self.old self.new × (self.old.room ≤ length self.old.steps)) }
        ensures counted { CountsCall self.old.calls self.new.calls result }
        ensures others { self.new ≡ record self.old { steps = self.new.steps; room = self.new.room; calls = self.new.calls; refused = self.new.refused } }
        ensures room { self.old.room ≤ self.new.room }
        ensures told { OnOk result (DidAll (record { file = file; change = Synced } ∷ self.old.steps) self.old self.new) }
        ensures tried { OnErr result (self.new.steps ≡ self.old.steps) }
    {
        self.calls.begin()?;
        match self.note(file, Work::Synced) {
            Ok(()) => Ok(()),
            Err(_) => Err(self.refuse()),
        }
    }

    fn remove(&mut self, file: File) -> Result<(), Failed>
        ensures fails { IsToFail self.old.calls → IsErr result × DidAll self.old.steps self.old self.new }
        ensures cause { IsErr result → IsToFail self.old.calls ⊎ (WantsMemory self.old self.new × (self.old.room ≤ length self.old.steps)) }
        ensures counted { CountsCall self.old.calls self.new.calls result }
        ensures others { self.new ≡ record self.old { steps = self.new.steps; room = self.new.room; calls = self.new.calls; refused = self.new.refused } }
        ensures room { self.old.room ≤ self.new.room }
        ensures told { OnOk result (DidAll (record { file = file; change = Removed } ∷ self.old.steps) self.old self.new) }
        ensures tried { OnErr result (self.new.steps ≡ self.old.steps) }
    {
        self.calls.begin()?;
        match self.clear(file) {
            Ok(()) => Ok(()),
            Err(_) => Err(self.refuse()),
        }
    }

    fn sync_removals(&mut self) -> Result<(), Failed>
        ensures fails { IsToFail self.old.calls → IsErr result × DidAll self.old.steps self.old self.new }
        ensures cause { IsErr result → IsToFail self.old.calls ⊎ WantsRoom self.old self.new }
        ensures counted { CountsCall self.old.calls self.new.calls result }
        ensures others { self.new ≡ record self.old { steps = self.new.steps; room = self.new.room; calls = self.new.calls; refused = self.new.refused } }
        ensures room { self.old.room ≤ self.new.room }
        ensures waits { OnlyWaits self.old.steps self.new.steps }
        ensures last { OnOk result (RemovalsLast self.new.steps × (self.new.refused ≡ self.old.refused)) }
    {
        self.calls.begin()?;
        match self.note_removals() {
            Ok(()) => Ok(()),
            Err(_) => Err(self.refuse()),
        }
    }
}
