//! The names of the disk's files.
ghost use Rattle.std.specs.Prelude.{◌≡◌};

use erm_outside::File;
use std::alloc::{AllocError, Global};

/// The name of the folder, which lies in the working folder.
pub const FOLDER: &str = "erm-data";

/// How many digits the number of a segment has.
const DIGITS: usize = 16;

/// The path of a file, from the working folder on.
pub fn path_of(alloc: Global, file: File) -> Result<String, AllocError> {
    match file {
        File::Slot0 => format!(in alloc; "{FOLDER}/slot0"),
        File::Slot1 => format!(in alloc; "{FOLDER}/slot1"),
        File::Segment(number) => format!(in alloc; "{FOLDER}/log{number:016x}"),
    }
}

/// The number of the segment that has a name, if one has.
pub fn segment_of(name: &str) -> Option<u64> {
    let digits = name.strip_prefix("log")?;
    let are_digits = digits
        .bytes()
        .all(|byte| matches!(byte, b'0'..=b'9' | b'a'..=b'f'));
    if digits.len() != DIGITS || !are_digits {
        return None;
    }
    u64::from_str_radix(digits, 16).ok()
}
