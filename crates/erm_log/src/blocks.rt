//! Blocks of a log, read once more and told one by one.
ghost use Rattle.std.specs.Prelude.{◌≡◌, ◌≢◌, ◌++◌, ◌<◌, ◌+◌, ◌*◌, length, Err, IfOk, IfSome, OnOk, Some};
ghost use Rattle.erm_block.specs.declared.block.Block.{Block as AnyBlock};
ghost use Rattle.erm_block.specs.Spelling.{StandsAt};
ghost use Rattle.erm_outside.specs.Disk.{contents};
ghost use Rattle.erm_log.specs.Listed.{AddsChain};
ghost use Rattle.erm_log.specs.Texts.{block_text};

use crate::block_text::push_block;
use erm_block::{BLOCK_WORDS, read_block, spelling_size};
use erm_bytes::WORD_BYTES;
use erm_log_disk::read_log;
use erm_model::Stamp;
use erm_outside::Disk;
use erm_recover::{RecoverStop, Tail};
use std::alloc::AllocError;

/// How many bytes the greatest block has.
pub(crate) const BLOCK_BYTES: usize = WORD_BYTES * BLOCK_WORDS;

/// Adds the texts of the blocks that lead from one place of a log to another. It writes nothing to the disk. Where no block goes on
/// before the end, which was found a moment before, the disk counts as failed.
pub(crate) fn push_blocks<D: Disk>(
    disk: &mut D,
    start: Tail,
    end: Stamp,
    out: &mut Vec<u8>,
    words: &mut [u64],
    bytes: &mut [u8],
) -> Result<(), RecoverStop>
    requires words { length words.old ≡ BLOCK_WORDS }
    requires bytes { length bytes.old ≡ BLOCK_BYTES }
    ensures texts { OnOk result (IfSome (D.told disk.old) (λ steps. AddsChain (contents steps) start end out.old.items out.new.items)) }
    ensures another { result ≢ Err RecoverStop.NoBase }
    ensures told { D.told disk.new ≡ D.told disk.old }
{
    spelling_size();
    let mut tail = start;
    while tail.at < end {
        let count = read_log(disk, tail.at, words, bytes)?;
        let Some(next) = push_next(&words[..count], tail, out)? else {
            return Err(RecoverStop::DiskFault);
        };
        tail = next;
    }
    Ok(())
}

// Adds the text of the block at the front of words, and answers where the next one goes on; `None` where no block stands there.
fn push_next(words: &[u64], tail: Tail, out: &mut Vec<u8>) -> Result<Option<Tail>, AllocError>
    ensures next { IfOk result (λ found. (block : AnyBlock) → StandsAt words.now block tail.at tail.run
        → (found ≡ Some (record { at = tail.at + block.size; run = block.run })) × (out.new.items ≡ out.old.items ++ block_text block)) }
    ensures above { IfOk result (λ found. IfSome found (λ next. tail.at < next.at)) }
{
    spelling_size();
    let Some(block) = read_block(words, tail.at, tail.run) else {
        return Ok(None);
    };
    push_block(out, &block)?;
    Ok(Some(Tail {
        at: tail.at + u64::from(block.size),
        run: block.run,
    }))
}
