//! A folder whose calls are listed.
ghost use Rattle.std.specs.Prelude.{◌≡◌, ◌∷◌, OnOk, OnErr, Some};

use erm_outside::File;
use erm_outside_real::{Access, Call, FileSystem, Lock, OpenFile};
use std::alloc::{AllocError, Global};
use std::io;

/// A folder that lists the calls that came through, the newest first, and keeps which files there are, without their bytes. One
/// of the calls may be made to fail.
#[derive(Drop)]
pub struct Recorder {
    calls: Vec<Call>,
    files: Vec<File>,
    fails_at: Option<usize>,
}

impl Recorder {
    /// A folder with these files.
    pub fn new(alloc: Global, files: Vec<File>) -> Self {
        Recorder {
            calls: Vec::new(alloc),
            files,
            fails_at: None,
        }
    }

    /// The same, where the call behind so many fails.
    pub fn failing(self, calls: usize) -> Self {
        let Recorder {
            calls: listed,
            files,
            ..
        } = self;
        Recorder {
            calls: listed,
            files,
            fails_at: Some(calls),
        }
    }

    /// The calls that came through, the newest first.
    pub fn into_calls(self) -> Vec<Call> {
        self.calls
    }

    // Lists a call, unless it is to fail.
    fn note(&mut self, call: Call) -> io::Result<()>
        ensures noted { OnOk result (self.new.calls.items ≡ call ∷ self.old.calls.items) }
        ensures none { OnErr result (self.new.calls.items ≡ self.old.calls.items) }
    {
        if self.fails_at == Some(self.calls.len()) {
            return Err(io::Error::from(io::ErrorKind::Other));
        }
        self.calls.insert(0, call)?;
        Ok(())
    }

    fn has(&self, file: File) -> bool {
        self.files.iter().any(|other| *other == file)
    }
}

impl FileSystem for Recorder {
    type Folder = ();

    type Handle = ();

    ghost calls = { λ r. Some r.calls.items };

    fn open_folder(&mut self) -> io::Result<Option<()>> {
        Ok(Some(()))
    }

    fn make_folder(&mut self) -> io::Result<()> {
        self.note(Call::FolderMade)
    }

    fn lock(&mut self, _folder: &(), _lock: Lock) -> io::Result<()> {
        Ok(())
    }

    fn sync_folder(&mut self, _folder: &()) -> io::Result<()> {
        self.note(Call::FolderSynced)
    }

    fn sync_parent(&mut self) -> io::Result<()> {
        self.note(Call::ParentSynced)
    }

    fn len(&mut self, _file: File) -> io::Result<u64> {
        Ok(0)
    }

    fn next_segment(&mut self, _from: u64) -> io::Result<Option<u64>> {
        Ok(None)
    }

    fn open(&mut self, file: File, _access: Access) -> io::Result<Option<OpenFile<()>>> {
        if self.has(file) {
            return Ok(Some(OpenFile { file, handle: () }));
        }
        self.note(Call::Missed(file))?;
        Ok(None)
    }

    fn make(&mut self, file: File) -> io::Result<OpenFile<()>> {
        self.note(Call::Made(file))?;
        self.files.push(file)?;
        Ok(OpenFile { file, handle: () })
    }

    fn read(&mut self, _found: &OpenFile<()>, _at: u64, _buf: &mut [u8]) -> io::Result<usize> {
        Ok(0)
    }

    fn write(&mut self, found: &OpenFile<()>, _at: u64, _bytes: &[u8]) -> io::Result<()> {
        self.note(Call::Wrote(found.file))
    }

    fn sync(&mut self, found: &OpenFile<()>) -> io::Result<()> {
        self.note(Call::Synced(found.file))
    }

    fn remove(&mut self, file: File) -> io::Result<()> {
        self.note(Call::Removed(file))?;
        self.files.retain(|other| *other != file);
        Ok(())
    }
}
