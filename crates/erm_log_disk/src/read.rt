//! Reading words of the log.
ghost use Rattle.std.specs.Prelude.{◌≡◌, ◌<◌, ◌≤◌, ◌+◌, ◌*◌, ◌%◌, ◌^◌, length, IfOk, OnOk, OnErr};
ghost use Rattle.erm_outside.specs.Faults.{Rose};
ghost use Rattle.erm_log_disk.specs.Reads.{ReadsLog, ReadsRun};

use erm_bytes::{WORD_BYTES, read_words};
use erm_model::{LOG_END, SEGMENT_WORDS, Stamp};
use erm_outside::{Disk, Failed};
use erm_segment::place;

/// Reads words of the log from a place on into the front of `words`: as many as fit, up to the first that isn't there. It
/// answers how many. The buffer is for their bytes.
pub fn read_log<D: Disk>(
    disk: &mut D,
    at: Stamp,
    words: &mut [u64],
    buffer: &mut [u8],
) -> Result<usize, Failed>
    requires short { length words.old ≤ SEGMENT_WORDS }
    requires room { WORD_BYTES * length words.old ≤ length buffer.old }
    ensures count { IfOk result (λ n. n ≤ length words.old) }
    ensures words { ReadsLog result (D.told disk.old) at (length words.old) words.new }
    ensures told { D.told disk.new ≡ D.told disk.old }
    ensures sound { OnOk result (D.faults disk.new ≡ D.faults disk.old) }
    ensures failed { OnErr result (Rose (D.faults disk.old) (D.faults disk.new)) }
{
    let count = words.len().min(LOG_END.saturating_sub(at) as usize);
    read_run(disk, at, &mut words[..count], buffer)
}

// Reads words of the log, all of which lie before its end.
fn read_run<D: Disk>(
    disk: &mut D,
    at: Stamp,
    words: &mut [u64],
    buffer: &mut [u8],
) -> Result<usize, Failed>
    requires short { length words.old ≤ SEGMENT_WORDS }
    requires end { at + length words.old < 2 ^ 64 }
    requires room { WORD_BYTES * length words.old ≤ length buffer.old }
    ensures count { IfOk result (λ n. n ≤ length words.old) }
    ensures words { IfOk result (λ n. ReadsRun (D.told disk.old) at (length words.old) n words.new) }
    ensures told { D.told disk.new ≡ D.told disk.old }
    ensures sound { OnOk result (D.faults disk.new ≡ D.faults disk.old) }
    ensures failed { OnErr result (Rose (D.faults disk.old) (D.faults disk.new)) }
{
    let first = words
        .len()
        .min((SEGMENT_WORDS - at % SEGMENT_WORDS) as usize);
    let (front, rest) = words.split_at_mut(first);
    let read = read_piece(disk, at, front, buffer)?;
    if read < first {
        return Ok(read);
    }
    let more = read_piece(disk, at + first as u64, rest, buffer)?;
    Ok(first + more)
}

// Reads words of the log that lie in one segment.
fn read_piece<D: Disk>(
    disk: &mut D,
    at: Stamp,
    words: &mut [u64],
    buffer: &mut [u8],
) -> Result<usize, Failed>
    requires one { at % SEGMENT_WORDS + length words.old ≤ SEGMENT_WORDS }
    requires room { WORD_BYTES * length words.old ≤ length buffer.old }
    ensures count { IfOk result (λ n. n ≤ length words.old) }
    ensures words { IfOk result (λ n. ReadsRun (D.told disk.old) at (length words.old) n words.new) }
    ensures told { D.told disk.new ≡ D.told disk.old }
    ensures sound { OnOk result (D.faults disk.new ≡ D.faults disk.old) }
    ensures failed { OnErr result (Rose (D.faults disk.old) (D.faults disk.new)) }
{
    let (file, byte) = place(at);
    let bytes = &mut buffer[..WORD_BYTES * words.len()];
    let count = disk.read(file, byte, bytes)? / WORD_BYTES;
    read_words(&bytes[..WORD_BYTES * count], &mut words[..count]);
    Ok(count)
}
