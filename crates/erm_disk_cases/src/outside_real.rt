ghost use Rattle.std.specs.Prelude.{◌≡◌, IfOk};

mod recorder;

use erm_outside::{Disk, Failed, File, Sink, Source};
use erm_outside_real::{Call, FOLDER, FolderDisk, Lock, Patient, ReaderSource, WriterSink};
use recorder::Recorder;
use std::alloc::{AllocError, Global};
use std::io::{Read, Write};
use std::os::unix::fs::{PermissionsExt, symlink};
use std::test::Fail;
use std::{fs, io};

// Moves a byte at each second call, and fails at the others.
#[derive(Drop)]
struct Shaky {
    bytes: Vec<u8>,
    fails: bool,
}

impl Shaky {
    fn turn(&mut self) -> io::Result<()> {
        self.fails = !self.fails;
        if self.fails {
            return Err(io::Error::from(io::ErrorKind::BrokenPipe));
        }
        Ok(())
    }
}

impl Read for Shaky {
    fn read(&mut self, buf: &mut [u8]) -> io::Result<usize> {
        self.turn()?;
        match (buf.first_mut(), self.bytes.pop()) {
            (Some(place), Some(byte)) => {
                *place = byte;
                Ok(1)
            }
            _ => Ok(0),
        }
    }
}

impl Write for Shaky {
    fn write(&mut self, buf: &[u8]) -> io::Result<usize> {
        self.turn()?;
        match buf.first() {
            Some(byte) if *byte != b'.' => {
                self.bytes.push(*byte)?;
                Ok(1)
            }
            _ => Ok(0),
        }
    }

    fn flush(&mut self) -> io::Result<()> {
        Ok(())
    }
}

#[test]
fn the_same_bytes_come_through(rt: HostRuntime) -> Result<(), Fail> {
    let mut buf = [0; 4];
    let mut out = Vec::new(rt.alloc());
    let mut source = ReaderSource::new(b"hello there".as_slice());
    let mut sink = WriterSink::new(&mut out);
    for want in [4, 4, 3, 0] {
        assert_eq!(rt; source.take(&mut buf), Ok(want));
        assert_eq!(rt; sink.put(&buf[..want]), Ok(want));
    }
    drop(sink);
    assert_eq!(rt; out.as_slice(), b"hello there".as_slice());
    Ok(())
}

// So is a write that takes nothing of a piece that has bytes: the fifth fails, and the sixth takes none.
#[test]
fn an_error_is_a_fault(rt: HostRuntime) -> Result<(), Fail> {
    let bytes = b"ab".to_vec(rt.alloc())?;
    let mut source = ReaderSource::new(Shaky {
        bytes,
        fails: false,
    });
    let mut sink = WriterSink::new(Shaky {
        bytes: Vec::new(rt.alloc()),
        fails: false,
    });
    let mut buf = [b'-'];
    for (piece, put, taken, byte) in [
        (b"ab".as_slice(), Err(Failed), Err(Failed), b'-'),
        (b"ab", Ok(1), Ok(1), b'b'),
        (b"", Err(Failed), Err(Failed), b'b'),
        (b"", Ok(0), Ok(1), b'a'),
        (b".", Err(Failed), Err(Failed), b'a'),
        (b".", Err(Failed), Ok(0), b'a'),
    ] {
        assert!(rt; sink.put(piece) == put && source.take(&mut buf) == taken && buf[0] == byte);
    }
    Ok(())
}

// What files are left to hold, by their paths: the names are those of the disk.
const LEFT: [(&str, &[u8]); 2] = [
    ("erm-data/slot1", b"\0\0slot"),
    ("erm-data/log00000000000000ab", b"segment"),
];

// Whether bytes are what a file has from a place on.
fn reads<D: Disk>(disk: &mut D, file: File, at: u64, bytes: &[u8]) -> bool {
    let mut buf = [b'.'; 16];
    match disk.read(file, at, &mut buf) {
        Ok(count) => &buf[..count.min(16)] == bytes,
        Err(Failed) => false,
    }
}

// A disk that may be handed to another thread.
fn is_writable<D: Disk + Send>(disk: &mut D) -> bool {
    let segment = File::Segment(0xab);
    disk.write(File::Slot0, 0, b"gone") == Ok(())
        && disk.write(File::Slot1, 2, b"slot") == Ok(())
        && disk.write(segment, 0, b"seg.") == Ok(())
        && disk.sync(segment) == Ok(())
        && disk.write(segment, 3, b"ment") == Ok(())
        && disk.sync(segment) == Ok(())
        && disk.write(segment, 100, b"") == Ok(())
        && disk.remove(File::Slot0) == Ok(())
        && disk.remove(File::Slot0) == Ok(())
        && disk.sync(File::Slot0) == Ok(())
}

fn is_readable<D: Disk>(disk: &mut D) -> bool {
    let segment = File::Segment(0xab);
    disk.len(File::Slot0) == Ok(0)
        && disk.len(File::Slot1) == Ok(6)
        && reads(disk, segment, 3, b"ment")
        && reads(disk, segment, 7, b"")
        && reads(disk, segment, u64::MAX, b"")
        && reads(disk, File::Slot0, 0, b"")
        && disk.next_segment(0xab) == Ok(Some(0xab))
        && disk.next_segment(0xac) == Ok(None)
}

// Whether a disk is read, or not, and written where nothing is written.
fn is_read_so<D: Disk>(disk: &mut D, is_read: bool) -> bool {
    disk.len(File::Slot0).is_ok() == is_read
        && disk.next_segment(0).is_ok() == is_read
        && disk.write(File::Slot0, 0, b"").is_ok()
}

// Whether a disk fails over a folder that may not be read. Where the system lets this process read each folder, it doesn't.
fn is_refused_folder(rt: &HostRuntime) -> io::Result<bool> {
    fs::create_dir(rt, FOLDER)?;
    fs::set_permissions(rt, FOLDER, fs::Permissions::from_mode(0))?;
    let is_read = fs::open(rt, FOLDER).is_ok();
    let is_same = is_read_so(&mut FolderDisk::new(rt), is_read);
    fs::set_permissions(rt, FOLDER, fs::Permissions::from_mode(0o700))?;
    fs::remove_dir_all(rt, FOLDER)?;
    Ok(is_same)
}

// Whether each call of a segment fails, and others don't. It is no segment.
fn refuses<D: Disk>(disk: &mut D, segment: File) -> bool {
    disk.len(segment) == Err(Failed)
        && disk.read(segment, 0, &mut [0]) == Err(Failed)
        && disk.next_segment(0xab) == Ok(None)
        && disk.write(segment, 0, b"x") == Err(Failed)
        && disk.remove(segment) == Err(Failed)
        && disk.len(File::Slot0) == Ok(0)
}

// Whether each call fails at a file in whose place a folder lies.
fn is_refused_file(rt: &HostRuntime) -> io::Result<bool> {
    fs::create_dir_all(rt, LEFT[1].0)?;
    let is_refused = refuses(&mut FolderDisk::new(rt), File::Segment(0xab));
    fs::remove_dir_all(rt, FOLDER)?;
    Ok(is_refused)
}

// Whether two disks read one folder, and write nothing to it, while a third has nothing of it.
fn are_shared<D: Disk>(one: &mut D, other: &mut D, whole: &mut D) -> bool {
    reads(one, File::Slot0, 0, b"slot")
        && reads(other, File::Slot0, 1, b"lot")
        && whole.len(File::Slot0) == Err(Failed)
        && one.write(File::Slot0, 0, b"x") == Err(Failed)
        && one.remove(File::Slot0) == Err(Failed)
        && one.next_segment(0) == Ok(Some(0xab))
        && reads(one, File::Segment(0xab), 0, b"slot")
}

// Whether disks that only read share the folder, and no other has it then; a link to a file is a segment.
fn is_shared(rt: &HostRuntime) -> io::Result<bool> {
    fs::create_dir(rt, FOLDER)?;
    fs::write(rt, "erm-data/slot0", b"slot".as_slice())?;
    symlink(rt, "slot0", LEFT[1].0)?;
    let mut one = FolderDisk::shared(rt);
    let mut other = FolderDisk::shared(rt);
    let mut whole = FolderDisk::new(rt);
    let is_same = are_shared(&mut one, &mut other, &mut whole);
    drop((one, other));
    let is_free = whole.len(File::Slot0) == Ok(4);
    drop(whole);
    fs::remove_dir_all(rt, FOLDER)?;
    Ok(is_same && is_free)
}

// Whether the files are there that were left.
fn are_left(rt: &HostRuntime) -> io::Result<bool> {
    for (path, bytes) in LEFT {
        if fs::read(rt, path)?.as_slice() != bytes {
            return Ok(false);
        }
    }
    Ok(true)
}

// Whether the folder is made by the first write, and is one disk's at a time.
fn is_made(rt: &HostRuntime) -> io::Result<bool> {
    let mut late = FolderDisk::new(rt);
    let mut disk = FolderDisk::new(rt);
    let is_empty = late.len(File::Slot1) == Ok(0) && disk.next_segment(0) == Ok(None);
    let is_late = !fs::exists(rt, FOLDER)?;
    let is_used = is_writable(&mut disk) && is_readable(&mut disk);
    let is_one = late.write(File::Slot1, 0, b"x") == Err(Failed)
        && FolderDisk::new(rt).len(File::Slot1) == Err(Failed);
    let is_made = is_empty && is_late && is_used && is_one && are_left(rt)?;
    drop(disk);
    Ok(is_made && is_readable(&mut FolderDisk::new(rt)))
}

// Whether what lies in its place and is no folder fails.
fn is_no_folder(rt: &HostRuntime) -> io::Result<bool> {
    fs::write(rt, FOLDER, b"no folder".as_slice())?;
    let mut none = FolderDisk::new(rt);
    let fails = none.len(File::Slot1) == Err(Failed) && none.sync(File::Slot1) == Err(Failed);
    fs::remove_file(rt, FOLDER)?;
    Ok(fails)
}

// What may not be read fails too, and a folder in a file's place.
#[test]
fn a_folder_is_a_disk(rt: HostRuntime) -> Result<(), Fail> {
    let _ = fs::remove_dir_all(&rt, FOLDER);
    assert!(rt; is_made(&rt)?);
    fs::remove_dir_all(&rt, FOLDER)?;
    assert!(rt; is_no_folder(&rt)?);
    assert!(rt; is_refused_folder(&rt)? && is_refused_file(&rt)? && is_shared(&rt)?);
    Ok(())
}

// A stream that is interrupted, then isn't ready, and then moves a byte.
#[derive(Drop)]
struct Busy {
    tries: u8,
}

impl Busy {
    fn turn(&mut self) -> io::Result<usize>
        ensures { IfOk result (λ n. n ≡ 0) }
    {
        self.tries = self.tries.wrapping_add(1);
        match self.tries % 4 {
            1 => Err(io::Error::from(io::ErrorKind::Interrupted)),
            2 => Err(io::Error::from(io::ErrorKind::WouldBlock)),
            3 => Err(io::Error::from(io::ErrorKind::BrokenPipe)),
            _ => Ok(0),
        }
    }
}

impl Read for Busy {
    fn read(&mut self, _buf: &mut [u8]) -> io::Result<usize> {
        self.turn()
    }
}

impl Write for Busy {
    fn write(&mut self, _buf: &[u8]) -> io::Result<usize> {
        self.turn()
    }

    fn flush(&mut self) -> io::Result<()> {
        Ok(())
    }
}

fn is_broken(moved: io::Result<usize>) -> bool {
    matches!(moved, Err(error) if error.kind() == io::ErrorKind::BrokenPipe)
}

fn is_none(moved: io::Result<usize>) -> bool {
    matches!(moved, Ok(0))
}

// A stream that is interrupted or isn't ready is asked again, and what it answers then is handed on.
#[test]
fn a_stream_is_waited_for(rt: HostRuntime) -> Result<(), Fail> {
    let mut busy = Patient::new(Busy { tries: 0 }, &rt);
    let mut buf = [0; 4];
    assert!(rt; is_broken(busy.write(b"x")));
    assert!(rt; is_none(busy.write(b"x")));
    assert!(rt; is_broken(busy.read(&mut buf)));
    assert!(rt; is_none(busy.read(&mut buf)));
    Ok(())
}

// What is done to a disk that was used before by a process that is gone: it is opened, for which what is there is waited for, and what is gone.
fn open_disk<D: Disk>(disk: &mut D) -> Result<(), Failed> {
    disk.sync_removals()?;
    for file in [File::Slot0, File::Slot1, File::Segment(6), File::Segment(7)] {
        disk.sync(file)?;
    }
    disk.write(File::Segment(7), 0, b"open")?;
    disk.sync(File::Segment(7))
}

// Then two segments are written.
fn write_two<D: Disk>(disk: &mut D) -> Result<(), Failed> {
    disk.write(File::Segment(7), 4, b"flushed")?;
    disk.write(File::Segment(8), 0, b"flushed")?;
    disk.sync(File::Segment(7))?;
    disk.sync(File::Segment(8))
}

// And a checkpoint is taken, behind which two segments are removed.
fn use_disk<D: Disk>(disk: &mut D) -> Result<(), Failed> {
    open_disk(disk)?;
    write_two(disk)?;
    disk.write(File::Slot1, 0, b"slot")?;
    disk.sync(File::Slot1)?;
    for segment in [6, 7] {
        disk.remove(File::Segment(segment))?;
        disk.sync(File::Segment(segment))?;
    }
    Ok(())
}

// The calls that have to come of it, where slot 0 and segments 6 and 7 are there: each file and each entry that is new or gone
// is waited for at its sync, and nothing is waited for twice.
const WANTED: [Call; 30] = [
    Call::FolderSynced,
    Call::ParentSynced,
    Call::Synced(File::Slot0),
    Call::Missed(File::Slot1),
    Call::Synced(File::Segment(6)),
    Call::Synced(File::Segment(7)),
    Call::Wrote(File::Segment(7)),
    Call::Synced(File::Segment(7)),
    Call::Wrote(File::Segment(7)),
    Call::Missed(File::Segment(8)),
    Call::Made(File::Segment(8)),
    Call::Wrote(File::Segment(8)),
    Call::Synced(File::Segment(7)),
    Call::FolderSynced,
    Call::ParentSynced,
    Call::Synced(File::Segment(8)),
    Call::Missed(File::Slot1),
    Call::Made(File::Slot1),
    Call::Wrote(File::Slot1),
    Call::Synced(File::Slot1),
    Call::FolderSynced,
    Call::ParentSynced,
    Call::Removed(File::Segment(6)),
    Call::Missed(File::Segment(6)),
    Call::FolderSynced,
    Call::ParentSynced,
    Call::Removed(File::Segment(7)),
    Call::Missed(File::Segment(7)),
    Call::FolderSynced,
    Call::ParentSynced,
];

// Whether calls, of which the newest is the first, are these.
fn are_wanted(calls: &[Call]) -> bool {
    for (call, want) in calls.iter().rev().zip(WANTED) {
        if *call != want {
            return false;
        }
    }
    calls.len() == WANTED.len()
}

fn used_before(alloc: Global) -> Result<Recorder, AllocError> {
    let mut files = Vec::new(alloc);
    for file in [File::Slot0, File::Segment(6), File::Segment(7)] {
        files.push(file)?;
    }
    Ok(Recorder::new(alloc, files))
}

// A call that fails is a fault, and the disk does no more; after a sync that failed each fails.
#[test]
fn the_calls_are_those_that_last(rt: HostRuntime) -> Result<(), Fail> {
    let alloc = rt.alloc();
    let mut disk = FolderDisk::over(alloc, used_before(alloc)?, Lock::Whole);
    assert!(rt; use_disk(&mut disk) == Ok(()));
    let calls = disk.into_files().into_calls();
    assert!(rt; are_wanted(calls.as_slice()));
    for fails_at in 0..calls.len() {
        let files = used_before(alloc)?.failing(fails_at);
        let mut disk = FolderDisk::over(alloc, files, Lock::Whole);
        assert!(rt; use_disk(&mut disk) == Err(Failed), "{fails_at}");
    }
    Ok(())
}
