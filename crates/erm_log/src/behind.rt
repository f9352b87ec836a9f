//! What lies behind the end of a log list.
ghost use Rattle.std.specs.Prelude.{◌≡◌, ◌≤◌, ℕ, length, IfNone, IfOk, IfSome};
ghost use Rattle.erm_block.specs.declared.block.Block.{Block as AnyBlock};
ghost use Rattle.erm_block.specs.Spelling.{StandsAt};
ghost use Rattle.erm_outside.specs.Disk.{contents};
ghost use Rattle.erm_log.specs.Behind.{LiesBehind, words_behind};

use erm_block::{FRAME_WORDS, read_block, spelling_size};
use erm_log_disk::read_log;
use erm_model::{LOG_END, RUN_UNIT, Stamp};
use erm_outside::{Disk, Failed};
use erm_recover::{WINDOW_BYTES, WINDOW_WORDS};

/// What lies behind the end of a log list, within as many words as a segment has.
#[derive(Clone, Copy, Debug, PartialEq, Eq)]
pub enum Behind {
    /// No word is there.
    Nothing,
    /// So many words, in which no block reads.
    Noise(usize),
    /// A block reads, the first one at this place, and is of this run: a byte before it has changed, a file is missing, or a
    /// crash cut a write of several blocks.
    Stands { at: Stamp, run: u64 },
}

/// Looks at what lies behind the end of a log list. It writes nothing.
pub(crate) fn look_behind<D: Disk>(
    disk: &mut D,
    end: Stamp,
    words: &mut [u64],
    bytes: &mut [u8],
) -> Result<Behind, Failed>
    requires end { end ≤ LOG_END }
    requires words { length words.old ≡ WINDOW_WORDS }
    requires bytes { length bytes.old ≡ WINDOW_BYTES }
    ensures lies { IfOk result (λ behind. IfSome (D.told disk.old) (λ steps. LiesBehind (words_behind (contents steps) end) end behind)) }
    ensures told { D.told disk.new ≡ D.told disk.old }
{
    let count = read_log(disk, end, words, bytes)?;
    Ok(first_block(&words[..count], end))
}

// The first block that reads in words that follow an end.
fn first_block(words: &[u64], end: Stamp) -> Behind
    requires end { end ≤ LOG_END }
    requires few { length words.now ≤ WINDOW_WORDS }
    ensures { LiesBehind words.now end result }
{
    for skipped in 0..words.len() {
        let at = end + skipped as u64;
        if let Some(run) = run_at(&words[skipped..], at) {
            return Behind::Stands { at, run };
        }
    }
    if words.is_empty() {
        Behind::Nothing
    } else {
        Behind::Noise(words.len())
    }
}

// The run of the block at the front of the words, which are the log's from a place on, whatever stands before it.
fn run_at(words: &[u64], at: Stamp) -> Option<u64>
    ensures found { IfSome result (λ run. (block : AnyBlock) × (before : ℕ) × StandsAt words.now block at before × (run ≡ block.run)) }
    ensures none { IfNone result ((block : AnyBlock) (before : ℕ) → StandsAt words.now block at before → ⊥) }
{
    spelling_size();
    if words.len() < FRAME_WORDS || words[1] != at {
        return None;
    }
    let run = words[0] / RUN_UNIT;
    if let Some(block) = read_block(words, at, run) {
        return Some(block.run);
    }
    let block = read_block(words, at, run.saturating_sub(1))?;
    Some(block.run)
}
