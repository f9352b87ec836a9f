//! Streams whose calls are short and fail, and disks with the images that a crash leaves.
use erm_outside::{Disk, Failed, File, Gate, Place, Sink, Source};
use erm_outside_mem::{MemDisk, MemSink, MemSource, OpenGate, Pick, Silent, SteadySource};
use std::alloc::{AllocError, Global};
use std::collections::BTreeMap;

// A call of a disk. Writing answers nothing, which stands for 0 here.
#[derive(Clone, Copy)]
enum Call {
    Len,
    Read { at: u64, most: usize },
    Write { at: u64, bytes: &'static [u8] },
    Sync,
    Remove,
    // None is `u64::MAX`.
    Next(u64),
}

const SEGMENT: File = File::Segment(7);

// Calls by their files, what each answers, and the buffer after it. The tenth is to fail, and one write is too great for memory.
const CALLS: [(File, Call, Result<u64, Failed>, &[u8; 8]); 20] = [
    (SEGMENT, Call::Read { at: 0, most: 8 }, Ok(0), b"........"),
    (
        SEGMENT,
        Call::Write {
            at: 2,
            bytes: b"abc",
        },
        Ok(0),
        b"........",
    ),
    (
        SEGMENT,
        Call::Write {
            at: 4,
            bytes: b"de",
        },
        Ok(0),
        b"........",
    ),
    (
        File::Slot0,
        Call::Write {
            at: 0,
            bytes: b"other",
        },
        Ok(0),
        b"........",
    ),
    (
        SEGMENT,
        Call::Write {
            at: 100,
            bytes: b"",
        },
        Ok(0),
        b"........",
    ),
    (SEGMENT, Call::Sync, Ok(0), b"........"),
    (SEGMENT, Call::Len, Ok(6), b"........"),
    (SEGMENT, Call::Read { at: 0, most: 8 }, Ok(6), b"\0\0abde.."),
    (SEGMENT, Call::Read { at: 3, most: 2 }, Ok(2), b"bdabde.."),
    (
        SEGMENT,
        Call::Write {
            at: 0,
            bytes: b"xy",
        },
        Err(Failed),
        b"bdabde..",
    ),
    (SEGMENT, Call::Read { at: 0, most: 2 }, Ok(2), b"\0\0abde.."),
    (SEGMENT, Call::Read { at: 6, most: 8 }, Ok(0), b"\0\0abde.."),
    (
        SEGMENT,
        Call::Read {
            at: u64::MAX,
            most: 8,
        },
        Ok(0),
        b"\0\0abde..",
    ),
    (
        SEGMENT,
        Call::Write {
            at: u64::MAX - 1,
            bytes: b"abc",
        },
        Err(Failed),
        b"\0\0abde..",
    ),
    (SEGMENT, Call::Next(0), Ok(7), b"\0\0abde.."),
    (SEGMENT, Call::Next(8), Ok(u64::MAX), b"\0\0abde.."),
    (SEGMENT, Call::Remove, Ok(0), b"\0\0abde.."),
    (SEGMENT, Call::Next(0), Ok(u64::MAX), b"\0\0abde.."),
    (SEGMENT, Call::Len, Ok(0), b"\0\0abde.."),
    (File::Slot0, Call::Len, Ok(5), b"\0\0abde.."),
];

// What a call that answers nothing stands for.
fn zero(done: Result<(), Failed>) -> Result<u64, Failed> {
    match done {
        Ok(()) => Ok(0),
        Err(failed) => Err(failed),
    }
}

fn ask<D: Disk>(disk: &mut D, file: File, call: Call, buf: &mut [u8; 8]) -> Result<u64, Failed> {
    match call {
        Call::Len => disk.len(file),
        Call::Read { at, most } => Ok(disk.read(file, at, &mut buf[..most.min(8)])? as u64),
        Call::Write { at, bytes } => zero(disk.write(file, at, bytes)),
        Call::Sync => zero(disk.sync(file)),
        Call::Remove => zero(disk.remove(file)),
        Call::Next(from) => Ok(disk.next_segment(from)?.unwrap_or(u64::MAX)),
    }
}

// Whether a disk answers each call as is said, and leaves the buffer so.
fn answers_so<D: Disk>(disk: &mut D) -> bool {
    let mut buf = [b'.'; 8];
    for (file, call, want, bytes) in &CALLS {
        if ask(disk, *file, *call, &mut buf) != *want || buf != **bytes {
            return false;
        }
    }
    true
}

#[test]
fn a_disk_keeps_its_files(rt: HostRuntime) -> Result<(), AllocError> {
    let alloc = rt.alloc();
    let mut disk = MemDisk::with_room(alloc, 8)?.failing([10].to_vec(alloc)?);
    assert!(rt; answers_so(&mut disk) && disk.refused() == 1);
    let mut silent = Silent {
        disk: MemDisk::new(alloc).failing([10].to_vec(alloc)?),
    };
    assert!(rt; answers_so(&mut silent));
    OpenGate.pass(&rt, 1, Place::Begin);
    Ok(())
}

// What is done to a disk before it crashes. The first five calls last; the ninth leaves one byte.
const DONE: [(File, Call); 9] = [
    (
        File::Slot0,
        Call::Write {
            at: 0,
            bytes: b"hello",
        },
    ),
    (File::Slot0, Call::Sync),
    (
        File::Slot1,
        Call::Write {
            at: 0,
            bytes: b"base",
        },
    ),
    (SEGMENT, Call::Sync),
    (File::Slot1, Call::Sync),
    (
        File::Slot0,
        Call::Write {
            at: 3,
            bytes: b"p!!",
        },
    ),
    (File::Slot1, Call::Remove),
    (
        SEGMENT,
        Call::Write {
            at: 2,
            bytes: b"ab",
        },
    ),
    (
        SEGMENT,
        Call::Write {
            at: 4,
            bytes: b"cde",
        },
    ),
];

// The slots, the segment and the next segment of each image.
const IMAGES: [(Pick, &[u8], &[u8], &[u8], u64); 3] = [
    (Pick::Nothing, b"hello", b"base", b"", u64::MAX),
    (Pick::All, b"help!!", b"", b"\0\0abc", 7),
    (
        Pick::Marks,
        b"hel\xa5\xa5\xa5",
        b"base",
        b"\0\0\xa5\xa5\xa5\xa5\xa5",
        7,
    ),
];

// A disk to which that was done, and whose calls fail from then on.
fn crashed(alloc: Global) -> Result<MemDisk, AllocError> {
    let mut fronts = BTreeMap::new(alloc);
    fronts.insert(9, 1)?;
    let mut disk = MemDisk::new(alloc).stop_at(8).leaving(fronts);
    for (file, call) in DONE {
        let _ = ask(&mut disk, file, call, &mut [b'.'; 8]);
    }
    Ok(disk)
}

// Whether a file has these bytes, read from its front.
fn has(disk: &mut MemDisk, file: File, bytes: &[u8]) -> bool {
    let mut buf = [b'.'; 8];
    let count = disk.read(file, 0, &mut buf).unwrap_or(8).min(8);
    &buf[..count] == bytes
}

// Whether an image has these bytes, and this segment next.
fn is_image(image: &mut MemDisk, slot0: &[u8], slot1: &[u8], segment: &[u8], next: u64) -> bool {
    has(image, File::Slot0, slot0)
        && has(image, File::Slot1, slot1)
        && has(image, SEGMENT, segment)
        && ask(image, SEGMENT, Call::Next(0), &mut [b'.'; 8]) == Ok(next)
}

#[test]
fn a_crash_leaves_images(rt: HostRuntime) -> Result<(), AllocError> {
    let mut disk = crashed(rt.alloc())?;
    assert!(rt; disk.len(File::Slot0) == Err(Failed));
    for (pick, slot0, slot1, segment, next) in IMAGES {
        assert!(rt;
            is_image(&mut disk.image(pick)?, slot0, slot1, segment, next),
            "{pick:?}"
        );
    }
    Ok(())
}

// A wait for removals waits for those behind which nothing was done to the file, and for no write to another file.
// A disk from which two files are removed that were synced, and to which a third is written then.
fn removed(alloc: Global) -> Result<MemDisk, Failed> {
    let mut disk = MemDisk::new(alloc);
    for file in [File::Slot1, SEGMENT] {
        disk.write(file, 0, b"old")?;
        disk.sync(file)?;
        disk.remove(file)?;
    }
    disk.write(File::Slot0, 0, b"new")?;
    Ok(disk)
}

// Whether what a crash leaves of nothing that wasn't waited for has these bytes in both files.
fn are_left(disk: &MemDisk, bytes: &[u8]) -> bool {
    match disk.image(Pick::Nothing) {
        Ok(mut image) => {
            has(&mut image, File::Slot1, bytes)
                && has(&mut image, SEGMENT, bytes)
                && has(&mut image, File::Slot0, b"")
        }
        Err(_) => false,
    }
}

#[test]
fn removals_are_waited_for(rt: HostRuntime) -> Result<(), Failed> {
    let disk = removed(rt.alloc())?;
    assert!(rt; are_left(&disk, b"old"));
    let mut stopped = disk.stop_at(0);
    assert!(rt; stopped.sync_removals() == Err(Failed));
    let mut disk = stopped.stop_at(u64::MAX);
    assert!(rt; disk.sync_removals() == Ok(()) && are_left(&disk, b""));
    assert!(rt; has(&mut disk, File::Slot0, b"new"));
    Ok(())
}

// Many calls end in good time: each write of a file lies behind the one before, and each tenth is synced.
// Whether so many calls come through.
fn takes(disk: &mut MemDisk, calls: u64) -> bool {
    for call in 0..calls {
        let file = File::Segment(call % 4);
        if disk.write(file, call.wrapping_mul(16), &[7; 64]) != Ok(()) {
            return false;
        }
        if call % 10 == 9 && disk.sync(file) != Ok(()) {
            return false;
        }
    }
    true
}

#[test]
fn a_disk_takes_thousands_of_calls(rt: HostRuntime) -> Result<(), AllocError> {
    let mut disk = MemDisk::new(rt.alloc());
    assert!(rt; takes(&mut disk, 10_000));
    let mut image = disk.image(Pick::All)?;
    assert!(rt; image.len(File::Segment(3)) == Ok(16 * 9_999 + 64) && disk.refused() == 0);
    Ok(())
}

fn is_taken(source: &mut MemSource, buf: &mut [u8], want: Result<usize, Failed>) -> bool {
    !buf.is_empty() && source.take(buf) == want
}

fn is_put(sink: &mut MemSink, piece: &[u8], want: Result<usize, Failed>) -> bool {
    sink.put(piece) == want
}

// Whether three bytes a call come through, but for the second call of each.
fn come_through(source: &mut MemSource, sink: &mut MemSink) -> bool {
    let mut buf = [b'.'; 8];
    for want in [Ok(3), Err(Failed), Ok(3), Ok(3), Ok(2), Ok(0)] {
        if !is_taken(source, &mut buf, want)
            || !is_put(sink, &buf[..want.unwrap_or(0).min(8)], want)
        {
            return false;
        }
    }
    true
}

fn is_steady(mut source: SteadySource) -> bool {
    let mut buf = [b'.'; 8];
    source.take(&mut buf) == Ok(8) && buf == *b"hello th"
}

#[test]
fn bytes_come_through(rt: HostRuntime) -> Result<(), AllocError> {
    let alloc = rt.alloc();
    let mut source = MemSource::new(b"hello there".to_vec(alloc)?, 3).failing([2].to_vec(alloc)?);
    let mut sink = MemSink::with_room(alloc, 3, 11)?.failing([2].to_vec(alloc)?);
    assert!(rt; come_through(&mut source, &mut sink));
    assert!(rt; is_steady(SteadySource::new(sink.as_slice().to_vec(alloc)?)));
    Ok(())
}
