//! A folder in memory that lists what is asked of it.
use erm_outside::File;
use erm_outside_real::{Access, Call, FileSystem, Lock, OpenFile};
use std::alloc::{AllocError, Global};
use std::{io, mem};

/// A file and its bytes.
#[derive(Drop)]
struct Kept {
    file: File,
    bytes: Vec<u8>,
}

/// A folder that is there, with its files in memory. It lists the calls that came through, the oldest first.
#[derive(Drop)]
pub struct Listing {
    alloc: Global,
    files: Vec<Kept>,
    calls: Vec<Call>,
}

impl Listing {
    /// A folder without files.
    pub fn new(alloc: Global) -> Self {
        Listing {
            alloc,
            files: Vec::new(alloc),
            calls: Vec::new(alloc),
        }
    }

    /// Puts a file there, with these bytes.
    pub fn add(&mut self, file: File, bytes: &[u8]) -> Result<(), AllocError> {
        let bytes = Vec::from_slice(self.alloc, bytes)?;
        self.files.push(Kept { file, bytes })?;
        Ok(())
    }

    /// The calls listed, of which none stays.
    pub fn take_calls(&mut self) -> Vec<Call> {
        mem::replace(&mut self.calls, Vec::new(self.alloc))
    }

    // Lists a call.
    fn note(&mut self, call: Call) -> io::Result<()> {
        self.calls.push(call)?;
        Ok(())
    }

    // The file of a name, if it is there.
    fn find(&self, file: File) -> Option<&Kept> {
        self.files.iter().find(|kept| kept.file == file)
    }

    // Its bytes, to be changed.
    fn bytes_mut(&mut self, file: File) -> Option<&mut Vec<u8>> {
        let kept = self.files.iter_mut().find(|kept| kept.file == file)?;
        Some(&mut kept.bytes)
    }
}

impl FileSystem for Listing {
    type Folder = ();

    type Handle = ();

    ghost use Rattle.std.specs.Prelude.{None};

    ghost calls = { λ _. None };

    fn open_folder(&mut self) -> io::Result<Option<()>> {
        Ok(Some(()))
    }

    fn make_folder(&mut self) -> io::Result<()> {
        Err(io::Error::from(io::ErrorKind::AlreadyExists))
    }

    fn lock(&mut self, _folder: &(), _lock: Lock) -> io::Result<()> {
        Ok(())
    }

    fn sync_folder(&mut self, _folder: &()) -> io::Result<()> {
        self.note(Call::FolderSynced)
    }

    fn sync_parent(&mut self) -> io::Result<()> {
        self.note(Call::ParentSynced)
    }

    fn len(&mut self, file: File) -> io::Result<u64> {
        Ok(self.find(file).map_or(0, |kept| kept.bytes.len() as u64))
    }

    fn next_segment(&mut self, from: u64) -> io::Result<Option<u64>> {
        let mut found: Option<u64> = None;
        for kept in &self.files {
            if let File::Segment(number) = kept.file {
                if number >= from && !kept.bytes.is_empty() && found.is_none_or(|it| number < it) {
                    found = Some(number);
                }
            }
        }
        Ok(found)
    }

    fn open(&mut self, file: File, _access: Access) -> io::Result<Option<OpenFile<()>>> {
        if self.find(file).is_some() {
            return Ok(Some(OpenFile { file, handle: () }));
        }
        self.note(Call::Missed(file))?;
        Ok(None)
    }

    fn make(&mut self, file: File) -> io::Result<OpenFile<()>> {
        self.add(file, &[])?;
        self.note(Call::Made(file))?;
        Ok(OpenFile { file, handle: () })
    }

    fn read(&mut self, found: &OpenFile<()>, at: u64, buf: &mut [u8]) -> io::Result<usize> {
        let Some(kept) = self.find(found.file) else {
            return Ok(0);
        };
        let there = kept.bytes.get(at as usize..).unwrap_or(&[]);
        let count = there.len().min(buf.len());
        buf[..count].copy_from_slice(&there[..count]);
        Ok(count)
    }

    fn write(&mut self, found: &OpenFile<()>, at: u64, bytes: &[u8]) -> io::Result<()> {
        let at = at as usize;
        if let Some(kept) = self.bytes_mut(found.file) {
            if kept.len() < at {
                kept.resize(at, 0)?;
            }
            for (place, byte) in bytes.iter().enumerate() {
                match kept.get_mut(at.saturating_add(place)) {
                    Some(old) => *old = *byte,
                    None => kept.push(*byte)?,
                }
            }
        }
        self.note(Call::Wrote(found.file))
    }

    fn sync(&mut self, found: &OpenFile<()>) -> io::Result<()> {
        self.note(Call::Synced(found.file))
    }

    fn remove(&mut self, file: File) -> io::Result<()> {
        if self.find(file).is_none() {
            return Err(io::Error::from(io::ErrorKind::NotFound));
        }
        self.files.retain(|kept| kept.file != file);
        self.note(Call::Removed(file))
    }
}
