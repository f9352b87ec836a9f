//! The calls of a folder as the system has them.
ghost use Rattle.std.specs.Prelude.{◌≡◌, ◌≤◌, length, None, IfOk, IfSome, IsTrue};
ghost use Rattle.erm_outside_real.specs.declared.calls.Call.{Call};
ghost use Rattle.erm_outside_real.specs.Calls.{Does, Looks};

use crate::calls::{Access, FileSystem, Lock, OpenFile};
use crate::names::{FOLDER, path_of, segment_of};
use erm_outside::File;
use std::fs::{DirEntry, OpenOptions};
use std::os::unix::fs::FileExt;
use std::rt::Files;
use std::{fs, io};

/// The folder `erm-data` of the working folder. It tells nothing of its calls.
///
/// A file is what its name leads to, through symbolic links too. Before anything is opened its kind is looked at, so that a
/// pipe isn't waited for.
#[derive(Drop)]
pub struct HostFiles<R: Files<File = fs::File>> {
    rt: R,
}

impl<R: Files<File = fs::File> + AllocGlobal + Clone + Drop> HostFiles<R> {
    /// The folder of the working folder.
    pub fn new(rt: R) -> Self {
        HostFiles { rt }
    }

    // What is known of a file, if it is there. What is there and no file is an error.
    fn look_at(&self, file: File) -> io::Result<Option<fs::Metadata>> {
        let path = path_of(self.rt.alloc(), file)?;
        match if_there(fs::metadata(&self.rt, path.as_str()))? {
            Some(metadata) if !metadata.is_file() => Err(io::Error::from(io::ErrorKind::Other)),
            found => Ok(found),
        }
    }

    // The number and length of the segment that an entry is, if it is one. A segment's name is UTF-8.
    fn segment_at(&self, entry: io::Result<DirEntry<R>>) -> io::Result<Option<(u64, u64)>> {
        let number = match entry {
            Err(error) if error.kind() == io::ErrorKind::InvalidFilename => None,
            entry => segment_of(entry?.file_name()),
        };
        let Some(number) = number else {
            return Ok(None);
        };
        let path = path_of(self.rt.alloc(), File::Segment(number))?;
        match if_there(fs::metadata(&self.rt, path.as_str()))? {
            Some(metadata) if metadata.is_file() => Ok(Some((number, metadata.len()))),
            _ => Ok(None),
        }
    }
}

impl<R: Files<File = fs::File> + AllocGlobal + Clone + Drop> FileSystem for HostFiles<R> {
    type Folder = fs::File;

    type Handle = fs::File;

    ghost calls = { λ _. None };

    fn open_folder(&mut self) -> io::Result<Option<fs::File>> {
        match if_there(fs::metadata(&self.rt, FOLDER))? {
            None => Ok(None),
            Some(metadata) if metadata.is_dir() => if_there(fs::open(&self.rt, FOLDER)),
            Some(_) => Err(io::Error::from(io::ErrorKind::NotADirectory)),
        }
    }

    fn make_folder(&mut self) -> io::Result<()> {
        fs::create_dir(&self.rt, FOLDER)
    }

    fn lock(&mut self, folder: &fs::File, lock: Lock) -> io::Result<()> {
        match lock {
            Lock::Shared => folder.try_lock_shared()?,
            Lock::Whole => folder.try_lock()?,
        }
        Ok(())
    }

    fn sync_folder(&mut self, folder: &fs::File) -> io::Result<()> {
        folder.sync_all()
    }

    fn sync_parent(&mut self) -> io::Result<()> {
        fs::open(&self.rt, ".")?.sync_all()
    }

    fn len(&mut self, file: File) -> io::Result<u64> {
        match self.look_at(file)? {
            Some(metadata) => Ok(metadata.len()),
            None => Ok(0),
        }
    }

    fn next_segment(&mut self, from: u64) -> io::Result<Option<u64>> {
        let mut least = None;
        for entry in fs::read_dir(&self.rt, FOLDER)? {
            if let Some((number, len)) = self.segment_at(entry)?
                && 0 < len
                && is_nearer(number, from, least)
            {
                least = Some(number);
            }
        }
        Ok(least)
    }

    fn open(&mut self, file: File, access: Access) -> io::Result<Option<OpenFile<fs::File>>> {
        if self.look_at(file)?.is_none() {
            return Ok(None);
        }
        let path = path_of(self.rt.alloc(), file)?;
        let mut options = OpenOptions::new();
        match access {
            Access::Read => options.read(true),
            Access::Write => options.write(true),
        };
        match if_there(options.open(&self.rt, path.as_str()))? {
            Some(handle) => Ok(Some(OpenFile { file, handle })),
            None => Ok(None),
        }
    }

    fn make(&mut self, file: File) -> io::Result<OpenFile<fs::File>> {
        let path = path_of(self.rt.alloc(), file)?;
        let handle = OpenOptions::new()
            .write(true)
            .create_new(true)
            .open(&self.rt, path.as_str())?;
        Ok(OpenFile { file, handle })
    }

    fn read(&mut self, found: &OpenFile<fs::File>, at: u64, buf: &mut [u8]) -> io::Result<usize> {
        found.handle.read_at(buf, at)
    }

    fn write(&mut self, found: &OpenFile<fs::File>, at: u64, bytes: &[u8]) -> io::Result<()> {
        found.handle.write_all_at(bytes, at)
    }

    fn sync(&mut self, found: &OpenFile<fs::File>) -> io::Result<()> {
        found.handle.sync_all()
    }

    fn remove(&mut self, file: File) -> io::Result<()> {
        let path = path_of(self.rt.alloc(), file)?;
        fs::remove_file(&self.rt, path.as_str())
    }
}

// What was found, if it is there.
fn if_there<T>(found: io::Result<T>) -> io::Result<Option<T>> {
    match found {
        Err(error) if error.kind() == io::ErrorKind::NotFound => Ok(None),
        found => Ok(Some(found?)),
    }
}

// Whether a number lies at or above another and below the least found so far.
fn is_nearer(number: u64, from: u64, least: Option<u64>) -> bool
    ensures { IsTrue result → from ≤ number }
{
    from <= number && least.is_none_or(|least| number < least)
}
