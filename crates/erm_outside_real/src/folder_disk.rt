//! The disk in a folder of the system.
ghost use Rattle.std.specs.Prelude.{◌≡◌, ◌≤◌, length, None, true, IfOk, IfSome, OnOk, OnErr, IsErr, Ok};
ghost use Rattle.erm_outside_real.specs.Calls.{EntriesLast, Lasts};
ghost use Rattle.erm_outside_real.specs.Faults.{CountsFault};
ghost use Rattle.erm_outside_real.specs.FolderDisk.{opened};

use crate::calls::{FileSystem, Lock};
use crate::folder::Folder;
use crate::host_files::HostFiles;
use erm_outside::{Disk, Failed, File};
use std::alloc::Global;
use std::marker::Model;
use std::rt::Files;
use std::{fs, io};

/// The disk in the folder `erm-data` of the working folder. Its files are `slot0`, `slot1`, and `log` with sixteen
/// lower-case hexadecimal digits of the number of a segment. The folder is made at the first write.
///
/// Each error of the system is a fault, and so is want of memory for a path or for a list of open files. A sync waits for
/// the file and, where files may have been made or removed since the folder was last synced, for the folder, so that the
/// file's entry lasts too. After a sync that failed each later one fails. That is proved for whatever makes the calls of the
/// system and tells them ([`FileSystem`]); the system itself ([`HostFiles`]) tells nothing.
///
/// The folder is locked from the first call that finds it until the disk is dropped: beside no other, or shared by disks that
/// only read. So a disk over a folder that another holds otherwise, in this process or in another, fails at its first call;
/// one that found no folder, which another disk has made since, fails at its first write and then at each call. A disk that
/// shares the folder fails at each write and removal.
///
/// It trusts the system: that reads give what was written; that a crash leaves what was synced, and of a write that wasn't
/// leaves other files and the bytes before it alone; that nobody else writes in the folder, and that all who do so take the
/// lock; that the working folder stays the same.
#[derive(Drop)]
pub struct FolderDisk<S: FileSystem> {
    folder: Folder<S>,
    faults: u64,
}

impl<S: FileSystem> Model for FolderDisk<S> {
    ghost use Rattle.erm_outside_real.specs.FolderDisk.{FolderDiskState};

    ghost Value = { FolderDiskState };

    ghost view = { λ d. record { calls = d.folder.calls; stuck = d.folder.stuck; faults = d.faults } };
}

impl<R: Files<File = fs::File> + AllocGlobal + Clone + Drop> FolderDisk<HostFiles<R>> {
    /// The disk in the working folder's folder, which no call has looked for yet.
    pub fn new(rt: R) -> Self
        ensures { result ≡ opened None }
    {
        FolderDisk::over(rt.alloc(), HostFiles::new(rt), Lock::Whole)
    }

    /// The same to be read alone, beside others that only read.
    pub fn shared(rt: R) -> Self
        ensures { result ≡ opened None }
    {
        FolderDisk::over(rt.alloc(), HostFiles::new(rt), Lock::Shared)
    }
}

impl<S: FileSystem + Drop> FolderDisk<S> {
    /// The disk in the folder of a system, which no call has looked for yet.
    pub fn over(alloc: Global, files: S, lock: Lock) -> Self
        ensures { result ≡ opened (S.calls files) }
    {
        FolderDisk {
            folder: Folder::new(alloc, files, lock),
            faults: 0,
        }
    }

    /// What makes the calls of the system. The folder is let go.
    pub fn into_files(self) -> S
        ensures { S.calls result ≡ self.calls }
    {
        self.folder.into_files()
    }

    // An error of the system is a fault.
    fn counted<T>(&mut self, done: io::Result<T>) -> Result<T, Failed>
        ensures counted { CountsFault self.old.faults self.new.faults result }
        ensures same { IfOk result (λ x. done ≡ Ok x) }
        ensures failed { OnErr result (IsErr done) }
        ensures others { self.new ≡ record self.old { faults = self.new.faults } }
    {
        match done {
            Ok(value) => Ok(value),
            Err(_) => {
                self.faults = self.faults.saturating_add(1);
                Err(Failed)
            }
        }
    }
}

impl<S: FileSystem + Drop> Disk for FolderDisk<S> {
    ghost faults = { λ d. d.faults };

    ghost told = { λ _. None };

    fn len(&mut self, file: File) -> Result<u64, Failed>
        ensures counted { CountsFault self.old.faults self.new.faults result }
        ensures stuck { self.new.stuck ≡ self.old.stuck }
    {
        let done = self.folder.len(file);
        self.counted(done)
    }

    fn read(&mut self, file: File, at: u64, buf: &mut [u8]) -> Result<usize, Failed>
        ensures within { IfOk result (λ n. n ≤ length buf.old) }
        ensures counted { CountsFault self.old.faults self.new.faults result }
        ensures stuck { self.new.stuck ≡ self.old.stuck }
    {
        let done = self.folder.read(file, at, buf);
        self.counted(done)
    }

    fn next_segment(&mut self, from: u64) -> Result<Option<u64>, Failed>
        ensures above { IfOk result (λ found. IfSome found (λ n. from ≤ n)) }
        ensures counted { CountsFault self.old.faults self.new.faults result }
        ensures stuck { self.new.stuck ≡ self.old.stuck }
    {
        let done = self.folder.next_segment(from);
        self.counted(done)
    }

    fn write(&mut self, file: File, at: u64, bytes: &[u8]) -> Result<(), Failed>
        ensures counted { CountsFault self.old.faults self.new.faults result }
        ensures stuck { self.new.stuck ≡ self.old.stuck }
    {
        let done = self.folder.write(file, at, bytes);
        self.counted(done)
    }

    fn sync(&mut self, file: File) -> Result<(), Failed>
        ensures counted { CountsFault self.old.faults self.new.faults result }

        // The file lasts as it is, and so do its entry and the folder's.
        ensures lasts { OnOk result (IfSome self.new.calls (Lasts file)) }

        // After one that failed each fails.
        ensures stuck { OnErr result (self.new.stuck ≡ true) }
        ensures stays { self.old.stuck ≡ true → IsErr result }
    {
        let done = self.folder.sync(file);
        self.counted(done)
    }

    fn remove(&mut self, file: File) -> Result<(), Failed>
        ensures counted { CountsFault self.old.faults self.new.faults result }
        ensures stuck { self.new.stuck ≡ self.old.stuck }
    {
        let done = self.folder.remove(file);
        self.counted(done)
    }

    fn sync_removals(&mut self) -> Result<(), Failed>
        ensures counted { CountsFault self.old.faults self.new.faults result }

        // Each entry of the folder is as it is and lasts, so that each removal does, of whatever file.
        ensures lasts { OnOk result (IfSome self.new.calls EntriesLast) }

        // After one that failed each fails.
        ensures stuck { OnErr result (self.new.stuck ≡ true) }
        ensures stays { self.old.stuck ≡ true → IsErr result }
    {
        let done = self.folder.sync_removals();
        self.counted(done)
    }
}
