//! The disk of the examples.
ghost use Rattle.std.specs.Prelude.{None, OnErr, OnOk, ◌≡◌};
ghost use Rattle.erm_outside.specs.Faults.{Rose};

use erm_outside::{Disk, Failed, File};
use erm_outside_mem::{MemDisk, Pick};
use std::alloc::{AllocError, Global};

/// A kind of call of a disk.
#[derive(Clone, Copy, PartialEq, Eq)]
pub enum Kind {
    /// Bytes are read.
    Read,
    /// Bytes are written.
    Write,
    /// What was done before is waited for.
    Sync,
    /// A file is removed.
    Remove,
}

/// A disk in memory that tells nothing. Of the calls of a kind one may be made to fail, and a read of a segment fails that
/// was removed.
#[derive(Drop)]
pub struct Device {
    disk: MemDisk,
    failing: Option<(Kind, u64)>,
    removed: u64,
    faults: u64,
}

impl Device {
    /// A disk without files.
    pub fn new(alloc: Global) -> Self {
        Self::over(MemDisk::new(alloc))
    }

    // A disk over one in memory, none of whose calls is made to fail here, and of which no segment was removed.
    fn over(disk: MemDisk) -> Self {
        Device {
            disk,
            failing: None,
            removed: 0,
            faults: 0,
        }
    }

    /// The disk that a crash now may leave: with what was waited for, and of the rest what the pick says. What was removed
    /// from it may be there again, so each file of it may be read.
    pub fn image(&self, pick: Pick) -> Result<Self, AllocError> {
        Ok(Self::over(self.disk.image(pick)?))
    }

    /// A disk of the same bytes, of which each call behind the first `calls` fails.
    pub fn stopped_at(&self, calls: u64) -> Result<Self, AllocError> {
        Ok(Self::over(self.disk.image(Pick::All)?.stop_at(calls)))
    }

    /// A disk of the same bytes, of which the call with this number, from 1, fails, and no other.
    pub fn failing_at(&self, alloc: Global, number: u64) -> Result<Self, AllocError> {
        let failing = Vec::from_slice(alloc, &[number])?;
        Ok(Self::over(self.disk.image(Pick::All)?.failing(failing)))
    }

    /// The same disk, with all that was left pending, of which no call fails any more.
    pub fn going_on(self) -> Self {
        Self::over(self.disk.stop_at(u64::MAX))
    }

    /// Of the calls of this kind from now on the one with this number, from 1, is to fail.
    pub fn fail_at(&mut self, kind: Kind, number: u64) {
        self.failing = Some((kind, number));
    }

    // Counts a fault.
    fn fail(&mut self) -> Failed
        ensures { Rose self.old.faults self.new.faults }
    {
        self.faults = self.faults.saturating_add(1);
        Failed
    }

    // Counts a call of this kind off, and fails it if it is the one that is to fail.
    fn begin(&mut self, kind: Kind) -> Result<(), Failed>
        ensures sound { OnOk result (self.new.faults ≡ self.old.faults) }
        ensures failed { OnErr result (Rose self.old.faults self.new.faults) }
    {
        let Some((failing, number)) = self.failing else {
            return Ok(());
        };
        if failing != kind {
            return Ok(());
        }
        if number <= 1 {
            self.failing = None;
            return Err(self.fail());
        }
        self.failing = Some((kind, number - 1));
        Ok(())
    }

    // Notes that a file was removed. Segments are removed from the front of the log on.
    fn note_removed(&mut self, file: File)
        ensures { self.new.faults ≡ self.old.faults }
    {
        if let File::Segment(number) = file {
            self.removed = number.saturating_add(1);
        }
    }

    // Whether a file is a segment that was removed.
    fn is_removed(&self, file: File) -> bool {
        match file {
            File::Segment(number) => number < self.removed,
            _ => false,
        }
    }
}

impl Disk for Device {
    ghost faults = { λ device. device.faults };

    ghost told = { λ _. None };

    fn len(&mut self, file: File) -> Result<u64, Failed> {
        match self.disk.len(file) {
            Ok(len) => Ok(len),
            Err(_) => Err(self.fail()),
        }
    }

    fn read(&mut self, file: File, at: u64, buf: &mut [u8]) -> Result<usize, Failed> {
        self.begin(Kind::Read)?;
        if self.is_removed(file) {
            return Err(self.fail());
        }
        match self.disk.read(file, at, buf) {
            Ok(count) => Ok(count),
            Err(_) => Err(self.fail()),
        }
    }

    fn next_segment(&mut self, from: u64) -> Result<Option<u64>, Failed> {
        match self.disk.next_segment(from) {
            Ok(found) => Ok(found),
            Err(_) => Err(self.fail()),
        }
    }

    fn write(&mut self, file: File, at: u64, bytes: &[u8]) -> Result<(), Failed> {
        self.begin(Kind::Write)?;
        match self.disk.write(file, at, bytes) {
            Ok(()) => Ok(()),
            Err(_) => Err(self.fail()),
        }
    }

    fn sync(&mut self, file: File) -> Result<(), Failed> {
        self.begin(Kind::Sync)?;
        match self.disk.sync(file) {
            Ok(()) => Ok(()),
            Err(_) => Err(self.fail()),
        }
    }

    fn remove(&mut self, file: File) -> Result<(), Failed> {
        self.begin(Kind::Remove)?;
        match self.disk.remove(file) {
            Ok(()) => {
                self.note_removed(file);
                Ok(())
            }
            Err(_) => Err(self.fail()),
        }
    }

    fn sync_removals(&mut self) -> Result<(), Failed> {
        match self.disk.sync_removals() {
            Ok(()) => Ok(()),
            Err(_) => Err(self.fail()),
        }
    }
}
