//! Disks in memory, and what is told of them.
use erm_outside_mem::{MemDisk, Silent};
use erm_report::{Line, Text};
use std::alloc::{AllocError, Global};

/// A disk without files.
pub fn empty(alloc: Global) -> Silent<MemDisk> {
    Silent {
        disk: MemDisk::new(alloc),
    }
}

/// A disk without files that does so many calls, and then fails.
pub fn stopping(alloc: Global, calls: u64) -> Silent<MemDisk> {
    Silent {
        disk: MemDisk::new(alloc).stop_at(calls),
    }
}

/// The text of lines.
pub fn text_of(alloc: Global, lines: &[Line]) -> Result<Text, AllocError> {
    let mut text = Text::new(alloc);
    for line in lines {
        text.add(line)?;
    }
    Ok(text)
}

/// Whether lines are told, and this is their text.
pub fn is_told(alloc: Global, lines: Option<Vec<Line>>, told: &str) -> Result<bool, AllocError> {
    match lines {
        Some(lines) => Ok(text_of(alloc, &lines)?.as_slice() == told.as_bytes()),
        None => Ok(false),
    }
}
