//! A folder of the system that holds the disk's files.
ghost use Rattle.std.specs.Prelude.{◌≡◌, ◌≤◌, length, false, true, IfOk, IfSome, OnOk, OnErr, IsErr, Ok};
ghost use Rattle.erm_outside.specs.declared.disk.File.{File as DiskFile};
ghost use Rattle.erm_outside_real.specs.Calls.{BytesLast, EntriesLast, IsMissed, Lasts};

use crate::calls::{Access, FileSystem, Lock, OpenFile};
use erm_outside::File;
use std::alloc::Global;
use std::io;
use std::marker::Model;

/// The greatest place in a file that the system knows.
const LAST_PLACE: u64 = i64::MAX as u64;

/// What is known of the folder.
#[derive(Drop)]
pub enum Place<F> {
    /// It wasn't looked for yet.
    Unseen,
    /// It isn't there.
    Absent,
    /// It wasn't there, and could not be made or locked then. Each call fails.
    Lost,
    /// It is there and locked, as long as this is held.
    Held(F),
}

/// The folder, which is looked for and locked at the first call, or made at the first write.
#[derive(Drop)]
pub struct Folder<S: FileSystem> {
    files: S,
    place: Place<S::Folder>,
    lock: Lock,
    // The files that were written since they were synced. They stay open, since the system tells of a write that failed later
    // only those that had the file open then.
    written: Vec<OpenFile<S::Handle>>,
    // Whether entries may have been made or removed since the folder was synced.
    entries_changed: bool,
    // Whether a sync failed.
    sync_failed: bool,
}

impl<S: FileSystem> Model for Folder<S> {
    ghost use Rattle.std.specs.Prelude.{IfSome};
    ghost use Rattle.erm_outside_real.specs.Folder.{FolderState, Knows, is_held};

    ghost Value = { FolderState };

    ghost view = { λ f. record { calls = S.calls f.files; held = is_held f.place; stuck = f.sync_failed } };

    ghost invariant = { λ f. IfSome (S.calls f.files) (Knows f.place f.entries_changed) };
}

impl<S: FileSystem + Drop> Folder<S> {
    /// A folder that wasn't looked for yet. What an earlier process made or removed may not last yet.
    pub fn new(alloc: Global, files: S, lock: Lock) -> Self
        ensures { result ≡ record { calls = S.calls files; held = false; stuck = false } }
    {
        Folder {
            files,
            place: Place::Unseen,
            lock,
            written: Vec::new(alloc),
            entries_changed: true,
            sync_failed: false,
        }
    }

    /// What makes the calls of the system. The folder is let go.
    pub fn into_files(self) -> S
        ensures { S.calls result ≡ self.calls }
    {
        self.files
    }

    // Whether the folder is there. It is looked for once.
    fn is_there(&mut self) -> io::Result<bool>
        ensures held { IfOk result (λ is_there. self.new.held ≡ is_there) }
        ensures absent { result ≡ Ok false → IfSome self.new.calls IsMissed }
        ensures stuck { self.new.stuck ≡ self.old.stuck }
    {
        match &self.place {
            Place::Held(_) => return Ok(true),
            Place::Absent => return Ok(false),
            Place::Lost => return Err(io::Error::from(io::ErrorKind::Other)),
            Place::Unseen => {}
        }
        match self.files.open_folder()? {
            Some(folder) => {
                self.files.lock(&folder, self.lock)?;
                self.place = Place::Held(folder);
                Ok(true)
            }
            None => {
                self.place = Place::Absent;
                Ok(false)
            }
        }
    }

    // Makes the folder where it isn't there. If another process has made it since it was looked for, the call fails.
    fn make(&mut self) -> io::Result<()>
        ensures held { OnOk result (self.new.held ≡ true) }
        ensures stuck { self.new.stuck ≡ self.old.stuck }
    {
        if self.lock == Lock::Shared {
            return Err(io::Error::from(io::ErrorKind::PermissionDenied));
        }
        if self.is_there()? {
            return Ok(());
        }
        self.place = Place::Lost;
        self.entries_changed = true;
        self.files.make_folder()?;
        match self.files.open_folder()? {
            Some(folder) => {
                self.files.lock(&folder, self.lock)?;
                self.place = Place::Held(folder);
                Ok(())
            }
            None => Err(io::Error::from(io::ErrorKind::NotFound)),
        }
    }

    // Opens a file to be written, which is made where it isn't there.
    fn find_or_make(&mut self, file: File) -> io::Result<OpenFile<S::Handle>>
        requires { self.old.held ≡ true }
        ensures held { self.new.held ≡ true }
        ensures stuck { self.new.stuck ≡ self.old.stuck }
    {
        if let Some(found) = self.files.open(file, Access::Write)? {
            return Ok(found);
        }
        self.entries_changed = true;
        self.files.make(file)
    }

    /// The length of a file, 0 where it isn't there.
    pub fn len(&mut self, file: File) -> io::Result<u64>
        ensures stuck { self.new.stuck ≡ self.old.stuck }
    {
        if self.is_there()? {
            self.files.len(file)
        } else {
            Ok(0)
        }
    }

    /// Reads bytes from a place on, as many as there are and as fit.
    pub fn read(&mut self, file: File, at: u64, buf: &mut [u8]) -> io::Result<usize>
        ensures within { IfOk result (λ n. n ≤ length buf.old) }
        ensures stuck { self.new.stuck ≡ self.old.stuck }
    {
        if !self.is_there()? {
            return Ok(0);
        }
        match self.files.open(file, Access::Read)? {
            Some(found) => read_from(&mut self.files, &found, at, buf),
            None => Ok(0),
        }
    }

    /// The least segment at or above a number that has bytes, if one has.
    pub fn next_segment(&mut self, from: u64) -> io::Result<Option<u64>>
        ensures above { IfOk result (λ found. IfSome found (λ n. from ≤ n)) }
        ensures stuck { self.new.stuck ≡ self.old.stuck }
    {
        if self.is_there()? {
            self.files.next_segment(from)
        } else {
            Ok(None)
        }
    }

    /// Writes bytes from a place on; none change nothing.
    pub fn write(&mut self, file: File, at: u64, bytes: &[u8]) -> io::Result<()>
        ensures stuck { self.new.stuck ≡ self.old.stuck }
    {
        if bytes.is_empty() {
            return Ok(());
        }
        self.make()?;
        let found = match take_open(&mut self.written, file) {
            Some(found) => found,
            None => self.find_or_make(file)?,
        };
        self.files.write(&found, at, bytes)?;
        self.written.push(found)?;
        Ok(())
    }

    /// Waits until what was done to a file lasts, also by earlier processes. After a call that failed each one fails, since
    /// the system may have dropped what was to be written.
    pub fn sync(&mut self, file: File) -> io::Result<()>
        ensures lasts { OnOk result (IfSome self.new.calls (Lasts file)) }
        ensures stuck { OnErr result (self.new.stuck ≡ true) }
        ensures stays { self.old.stuck ≡ true → IsErr result }
    {
        if self.sync_failed {
            return Err(io::Error::from(io::ErrorKind::Other));
        }
        let done = self.sync_both(file);
        self.sync_failed = done.is_err();
        done
    }

    // Syncs a file, and the folder where its entries may have changed.
    fn sync_both(&mut self, file: File) -> io::Result<()>
        ensures lasts { OnOk result (IfSome self.new.calls (Lasts file)) }
        ensures stuck { self.new.stuck ≡ self.old.stuck }
    {
        if !self.is_there()? {
            return Ok(());
        }
        self.sync_bytes(file)?;
        self.sync_entries()
    }

    /// Waits until each entry that was made or removed lasts, also by earlier processes: so does each removal, of whatever file. After a call
    /// that failed each sync fails.
    pub fn sync_removals(&mut self) -> io::Result<()>
        ensures lasts { OnOk result (IfSome self.new.calls EntriesLast) }
        ensures stuck { OnErr result (self.new.stuck ≡ true) }
        ensures stays { self.old.stuck ≡ true → IsErr result }
    {
        if self.sync_failed {
            return Err(io::Error::from(io::ErrorKind::Other));
        }
        let done = self.sync_found();
        self.sync_failed = done.is_err();
        done
    }

    // Syncs the folder where its entries may have changed, if it is there.
    fn sync_found(&mut self) -> io::Result<()>
        ensures lasts { OnOk result (IfSome self.new.calls EntriesLast) }
        ensures stuck { self.new.stuck ≡ self.old.stuck }
    {
        if !self.is_there()? {
            return Ok(());
        }
        self.sync_entries()
    }

    // Syncs a file, if it is there.
    fn sync_bytes(&mut self, file: File) -> io::Result<()>
        requires { self.old.held ≡ true }
        ensures bytes { OnOk result (IfSome self.new.calls (BytesLast file)) }
        ensures held { self.new.held ≡ true }
        ensures stuck { self.new.stuck ≡ self.old.stuck }
    {
        if let Some(written) = take_open(&mut self.written, file) {
            return self.files.sync(&written);
        }
        match self.files.open(file, Access::Read)? {
            Some(found) => self.files.sync(&found),
            None => Ok(()),
        }
    }

    // Syncs the folder, and the folder in which it lies, where entries may have changed.
    fn sync_entries(&mut self) -> io::Result<()>
        ensures entries { OnOk result (IfSome self.new.calls EntriesLast) }
        ensures bytes { (file : DiskFile) → IfSome self.old.calls (BytesLast file) → IfSome self.new.calls (BytesLast file) }
        ensures stuck { self.new.stuck ≡ self.old.stuck }
    {
        if !self.entries_changed {
            return Ok(());
        }
        let Place::Held(folder) = &self.place else {
            return Err(io::Error::from(io::ErrorKind::Other));
        };
        self.files.sync_folder(folder)?;
        self.files.sync_parent()?;
        self.entries_changed = false;
        Ok(())
    }

    /// Removes a file, if it is there.
    pub fn remove(&mut self, file: File) -> io::Result<()>
        ensures stuck { self.new.stuck ≡ self.old.stuck }
    {
        if self.lock == Lock::Shared {
            return Err(io::Error::from(io::ErrorKind::PermissionDenied));
        }
        if !self.is_there()? {
            return Ok(());
        }
        self.entries_changed = true;
        drop(take_open(&mut self.written, file));
        match self.files.remove(file) {
            Err(error) if error.kind() != io::ErrorKind::NotFound => Err(error),
            _ => Ok(()),
        }
    }
}

// Takes an open file out of a list, if it is there.
fn take_open<H>(written: &mut Vec<OpenFile<H>>, file: File) -> Option<OpenFile<H>>
    ensures { IfSome result (λ it. it.file ≡ file) }
{
    for at in 0..written.len() {
        if written[at].file == file {
            return Some(written.swap_remove(at));
        }
    }
    None
}

// Reads bytes from a place on, as many as there are and as fit.
fn read_from<S: FileSystem>(
    files: &mut S,
    found: &OpenFile<S::Handle>,
    at: u64,
    buf: &mut [u8],
) -> io::Result<usize>
    ensures within { IfOk result (λ n. n ≤ length buf.old) }
    ensures same { S.calls files.new ≡ S.calls files.old }
{
    let mut count = 0;
    while count < buf.len() {
        let place = at.saturating_add(count as u64);
        if LAST_PLACE < place {
            break;
        }
        let more = read_some(files, found, place, &mut buf[count..])?;
        if more == 0 {
            break;
        }
        count += more;
    }
    Ok(count)
}

// Reads some bytes from a place on, again where a signal interrupts it.
fn read_some<S: FileSystem>(
    files: &mut S,
    found: &OpenFile<S::Handle>,
    at: u64,
    buf: &mut [u8],
) -> io::Result<usize>
    ensures within { IfOk result (λ n. n ≤ length buf.old) }
    ensures same { S.calls files.new ≡ S.calls files.old }
{
    for _ in 0..u64::MAX {
        match files.read(found, at, buf) {
            Err(error) if error.kind() == io::ErrorKind::Interrupted => {}
            done => return done,
        }
    }
    Err(io::Error::from(io::ErrorKind::Interrupted))
}
