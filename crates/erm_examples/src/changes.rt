//! What befalls a disk between two calls of the program, and what stands on it.
use crate::device::{Device, Kind};
use erm_outside::{Disk, File};
use erm_outside_mem::Pick;
use std::alloc::Global;

/// Bytes at a place of a file.
#[derive(Drop)]
struct Part {
    file: File,
    at: u64,
    bytes: Vec<u8>,
}

/// Does to a disk what a line says: `write FILE AT DIGITS` writes bytes, `cut FILE LENGTH` takes away what stands behind,
/// `fail KIND NUMBER` fails the next call of this kind with this number, and `crash PICK` takes away of what was not
/// waited for all, nothing, or leaves marks in its place. It answers nothing where a line says something else.
pub fn change(alloc: Global, device: &mut Device, line: &str) -> Option<()> {
    let (kind, rest) = line.split_once(' ')?;
    match kind {
        "write" => write(alloc, device, rest),
        "cut" => cut(alloc, device, rest),
        "fail" => fail(device, rest),
        "crash" => crash(device, rest),
        _ => None,
    }
}

/// Whether a file has these bytes from a place on to its end, as a line names them: `FILE AT DIGITS`, or `FILE AT` where
/// there are none. It answers nothing where a line says something else.
pub fn stands(alloc: Global, device: &Device, line: &str) -> Option<bool> {
    let part = part_of(alloc, line)?;
    let found = bytes_of(alloc, device, part.file)?;
    let behind = found.get(part.at as usize..).unwrap_or(&[]);
    Some(behind == part.bytes.as_slice())
}

// The bytes and the place that a line names.
fn part_of(alloc: Global, line: &str) -> Option<Part> {
    let (name, rest) = line.split_once(' ')?;
    let (number, digits) = rest.split_once(' ').unwrap_or((rest, ""));
    let file = file_of(name)?;
    let at = number.parse::<u64>().ok()?;
    let bytes = hex::decode(alloc, digits).ok()?;
    Some(Part { file, at, bytes })
}

// The bytes of a file, read from a copy of the disk, of which each file may be read.
fn bytes_of(alloc: Global, device: &Device, file: File) -> Option<Vec<u8>> {
    let mut copy = device.image(Pick::All).ok()?;
    let count = copy.len(file).ok()?;
    let mut bytes = vec![in alloc; 0; count as usize].ok()?;
    copy.read(file, 0, &mut bytes).ok()?;
    Some(bytes)
}

// Writes bytes, and waits until they last.
fn write(alloc: Global, device: &mut Device, line: &str) -> Option<()> {
    let part = part_of(alloc, line)?;
    device.write(part.file, part.at, &part.bytes).ok()?;
    device.sync(part.file).ok()
}

// Leaves so many bytes of a file.
fn cut(alloc: Global, device: &mut Device, line: &str) -> Option<()> {
    let (name, length) = line.split_once(' ')?;
    let file = file_of(name)?;
    let mut bytes = bytes_of(alloc, device, file)?;
    bytes.truncate(length.parse::<usize>().ok()?);
    replace(device, file, &bytes)
}

// Puts these bytes in the place of those of a file, and waits until that lasts.
fn replace(device: &mut Device, file: File, bytes: &[u8]) -> Option<()> {
    device.remove(file).ok()?;
    device.write(file, 0, bytes).ok()?;
    *device = device.image(Pick::All).ok()?;
    Some(())
}

// Makes a call of a kind fail.
fn fail(device: &mut Device, line: &str) -> Option<()> {
    let (word, number) = line.split_once(' ')?;
    device.fail_at(kind_of(word)?, number.parse::<u64>().ok()?);
    Some(())
}

// Leaves what a crash may leave.
fn crash(device: &mut Device, word: &str) -> Option<()> {
    *device = device.image(pick_of(word)?).ok()?;
    Some(())
}

// The file of a name: `slot0`, `slot1`, or `log` with the number of a segment.
fn file_of(name: &str) -> Option<File> {
    match name {
        "slot0" => Some(File::Slot0),
        "slot1" => Some(File::Slot1),
        _ => segment_of(name),
    }
}

// The segment of a name.
fn segment_of(name: &str) -> Option<File> {
    let number = name.strip_prefix("log")?;
    Some(File::Segment(number.parse::<u64>().ok()?))
}

// The kind of call of a word.
fn kind_of(word: &str) -> Option<Kind> {
    match word {
        "read" => Some(Kind::Read),
        "write" => Some(Kind::Write),
        "sync" => Some(Kind::Sync),
        "remove" => Some(Kind::Remove),
        _ => None,
    }
}

// What a crash leaves of what was not waited for, by its word.
fn pick_of(word: &str) -> Option<Pick> {
    match word {
        "nothing" => Some(Pick::Nothing),
        "all" => Some(Pick::All),
        "marks" => Some(Pick::Marks),
        _ => None,
    }
}
