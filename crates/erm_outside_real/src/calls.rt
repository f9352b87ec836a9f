//! The calls of the system that a folder makes, as a trait.
ghost use Rattle.std.specs.Prelude.{◌≡◌, ◌≤◌, List, Option, length, IfOk, IfSome};
ghost use Rattle.erm_outside_real.specs.declared.calls.Call.{Call};
ghost use Rattle.erm_outside_real.specs.Calls.{Does, Looks};

use erm_outside::File;
use std::io;

/// A call that came through, of those on which it rests what of a folder lasts.
#[derive(Clone, Copy, Debug, PartialEq, Eq)]
pub enum Call {
    /// The folder was looked for, and isn't there.
    FolderMissed,
    /// The folder was made.
    FolderMade,
    /// It was waited for the entries of the folder to last.
    FolderSynced,
    /// It was waited for the entry of the folder to last, in the folder in which it lies.
    ParentSynced,
    /// A file was looked for, and isn't there.
    Missed(File),
    /// A file was made.
    Made(File),
    /// Bytes of a file were written.
    Wrote(File),
    /// It was waited for the bytes of a file to last.
    Synced(File),
    /// A file was removed.
    Removed(File),
}

/// How the folder is locked.
#[derive(Clone, Copy, Debug, PartialEq, Eq)]
pub enum Lock {
    /// Beside others that lock it so. Nothing may be written then.
    Shared,
    /// Beside no other.
    Whole,
}

/// What a file is opened for.
#[derive(Clone, Copy, Debug, PartialEq, Eq)]
pub enum Access {
    /// To be read, or synced.
    Read,
    /// To be written.
    Write,
}

/// An open file, and which one it is.
#[derive(Drop)]
pub struct OpenFile<H> {
    /// Which file it is.
    pub file: File,
    /// What the system knows it by.
    pub handle: H,
}

/// The calls of a system on one folder and its files. Each may fail, for causes of the system's own; where it does, what it
/// was to do may be done or not.
pub trait FileSystem {
    /// The open folder. It stays locked until it is let go.
    type Folder: Drop;

    /// What an open file is known by.
    type Handle: Drop;

    /// The calls that came through, the newest first, or `None` where it doesn't tell.
    ghost calls: { Self → Option (List Call) };

    /// Opens the folder, if it is there. What is there and no folder is an error.
    fn open_folder(&mut self) -> io::Result<Option<Self::Folder>>
        ensures { Looks Call.FolderMissed result (calls self.old) (calls self.new) };

    /// Makes the folder. Where it is there the call fails.
    fn make_folder(&mut self) -> io::Result<()>
        ensures { Does Call.FolderMade result (calls self.old) (calls self.new) };

    /// Locks the folder. Where another holds it the call fails.
    fn lock(&mut self, folder: &Self::Folder, lock: Lock) -> io::Result<()>
        ensures { calls self.new ≡ calls self.old };

    /// Waits until the entries of the folder last.
    fn sync_folder(&mut self, folder: &Self::Folder) -> io::Result<()>
        ensures { Does Call.FolderSynced result (calls self.old) (calls self.new) };

    /// Waits until the entry of the folder lasts, in the folder in which it lies.
    fn sync_parent(&mut self) -> io::Result<()>
        ensures { Does Call.ParentSynced result (calls self.old) (calls self.new) };

    /// The length of a file in bytes, 0 where it isn't there. What is there and no file is an error.
    fn len(&mut self, file: File) -> io::Result<u64>
        ensures { calls self.new ≡ calls self.old };

    /// The least segment at or above a number that has bytes, if one has. What is no file is passed over.
    fn next_segment(&mut self, from: u64) -> io::Result<Option<u64>>
        ensures above { IfOk result (λ found. IfSome found (λ n. from ≤ n)) }
        ensures same { calls self.new ≡ calls self.old };

    /// Opens a file, if it is there. What is there and no file is an error.
    fn open(&mut self, file: File, access: Access) -> io::Result<Option<OpenFile<Self::Handle>>>
        ensures looks { Looks (Call.Missed file) result (calls self.old) (calls self.new) }
        ensures file { IfOk result (λ found. IfSome found (λ it. it.file ≡ file)) };

    /// Makes a file and opens it to be written. Where it is there the call fails.
    fn make(&mut self, file: File) -> io::Result<OpenFile<Self::Handle>>
        ensures does { Does (Call.Made file) result (calls self.old) (calls self.new) }
        ensures file { IfOk result (λ it. it.file ≡ file) };

    /// Reads bytes from a place on, and answers how many: some of those that are there and fit, and none only where there
    /// are none.
    fn read(&mut self, found: &OpenFile<Self::Handle>, at: u64, buf: &mut [u8]) -> io::Result<usize>
        ensures within { IfOk result (λ n. n ≤ length buf.old) }
        ensures same { calls self.new ≡ calls self.old };

    /// Writes all of the bytes from a place on.
    fn write(&mut self, found: &OpenFile<Self::Handle>, at: u64, bytes: &[u8]) -> io::Result<()>
        ensures { Does (Call.Wrote found.now.file) result (calls self.old) (calls self.new) };

    /// Waits until the bytes of a file last.
    fn sync(&mut self, found: &OpenFile<Self::Handle>) -> io::Result<()>
        ensures { Does (Call.Synced found.now.file) result (calls self.old) (calls self.new) };

    /// Removes a file. Where it isn't there the call fails.
    fn remove(&mut self, file: File) -> io::Result<()>
        ensures { Does (Call.Removed file) result (calls self.old) (calls self.new) };
}
