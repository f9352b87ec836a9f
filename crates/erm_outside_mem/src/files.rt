//! Files in memory.
ghost use Rattle.std.specs.Prelude.{◌≡◌, ◌<◌, ◌≤◌, ◌+◌, ◌-◌, ◌^◌, ◌++◌, length, take, drop, replicate, OnOk, OnErr, IfOk, Some};
ghost use Rattle.std.specs.BTreeMap.{get, Updates};
ghost use Rattle.erm_outside.specs.contracts.disk.FileOrd.TheImpl as file_order;
ghost use Rattle.erm_outside.specs.Disk.{spliced, IsNextSegment, Reads, Same};
ghost use Rattle.erm_outside_mem.specs.DiskNotes.{file_bytes, image_of, patched_in, HaveBytes};

use erm_outside::File;
use std::alloc::{AllocError, Global};
use std::collections::BTreeMap;

/// Files by their names, of which each has bytes.
pub type Files = BTreeMap<File, Vec<u8>>;

/// The bytes of a file.
pub fn contents(files: &Files, file: File) -> &[u8]
    ensures { result.now ≡ image_of files.now file }
{
    match files.get(&file) {
        Some(contents) => contents,
        None => &[],
    }
}

/// Reads bytes from `at` on, as many as there are and as fit.
pub fn read_from(contents: &[u8], at: u64, buf: &mut [u8]) -> usize
    ensures { Reads contents.now at result buf.old buf.new }
{
    let rest = contents.get(at as usize..).unwrap_or(&[]);
    let count = rest.len().min(buf.len());
    buf[..count].copy_from_slice(&rest[..count]);
    count
}

/// The least segment at or above a number, if there is one.
pub fn next_segment(files: &Files, from: u64) -> Option<u64>
    requires { HaveBytes files.now }
    ensures { IsNextSegment (image_of files.now) from result }
{
    match files.range(File::Segment(from)..).next() {
        Some((File::Segment(number), _)) => Some(*number),
        _ => None,
    }
}

// Makes room up to `end`, where there are zeros.
fn grow(contents: &mut Vec<u8>, end: usize) -> Result<(), AllocError>
    ensures grown { OnOk result (contents.new.items ≡ contents.old.items ++ replicate (end - length contents.old.items) 0) }
    ensures kept { OnErr result (contents.new.items ≡ contents.old.items) }
{
    if contents.len() < end {
        contents.resize(end, 0)?;
    }
    Ok(())
}

// Copies bytes over a part.
fn copy_to(contents: &mut [u8], at: usize, bytes: &[u8])
    requires { at + length bytes.now ≤ length contents.old }
    ensures { contents.new ≡ take at contents.old ++ bytes.now ++ drop (at + length bytes.now) contents.old }
{
    contents[at..at + bytes.len()].copy_from_slice(bytes);
}

/// Writes bytes over what is there, and zeros between the end and `at`.
pub fn overwrite(contents: &mut Vec<u8>, at: u64, bytes: &[u8]) -> Result<(), AllocError>
    ensures done { OnOk result (contents.new.items ≡ spliced contents.old.items at bytes.now) }
    ensures kept { OnErr result (contents.new.items ≡ contents.old.items) }
{
    let at = at as usize;
    let Some(end) = at.checked_add(bytes.len()) else {
        return Err(AllocError);
    };
    grow(contents, end)?;
    copy_to(contents, at, bytes);
    Ok(())
}

/// Writes bytes to a file, which may be new.
pub fn write_file(
    alloc: Global,
    files: &mut Files,
    file: File,
    at: u64,
    bytes: &[u8],
) -> Result<(), AllocError>
    requires { HaveBytes files.old }
    ensures done { OnOk result (Same (image_of files.new) (patched_in file at bytes.now (image_of files.old))) }
    ensures kept { OnErr result (Same (image_of files.new) (image_of files.old)) }
    ensures have { HaveBytes files.new }
{
    if bytes.is_empty() {
        return Ok(());
    }
    if let Some(contents) = files.get_mut(&file) {
        return overwrite(contents, at, bytes);
    }
    let mut contents = Vec::new(alloc);
    overwrite(&mut contents, at, bytes)?;
    files.insert(file, contents)?;
    Ok(())
}
