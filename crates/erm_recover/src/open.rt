//! Opening the log of a disk.
ghost use Rattle.std.specs.Prelude.{◌≡◌, ◌≢◌, ◌+◌, ◌≤◌, ◌<◌, ◌↔◌, IfOk, IfSome, OnOk, Err};
ghost use Rattle.erm_model.specs.Rows.{rows_of};
ghost use Rattle.erm_block.specs.declared.block.TheConstants.{RUN_END};
ghost use Rattle.erm_block.specs.Block.{IsBlock};
ghost use Rattle.erm_block.specs.Spelling.{spelling};
ghost use Rattle.erm_outside.specs.Disk.{contents};
ghost use Rattle.erm_outside.specs.Faults.{Rose};
ghost use Rattle.erm_log_words.specs.Tears.{IsFresh};
ghost use Rattle.erm_ckpt.specs.Recovered.{Pair};
ghost use Rattle.erm_recover.specs.Opening.{HoldsOpened, OpensTold, StopsAs, open_block};
ghost use Rattle.erm_recover.specs.Recovering.{IsRecovered, state_recovered};
ghost use Rattle.erm_recover.specs.Waiting.{IsSettledBeyond};

use crate::Recovered;
use crate::waiting::sync_pending;
use arrayvec::ArrayVec;
use erm_block::{Block, FRAME_WORDS, Kind, encode_into};
use erm_bytes::WORD_BYTES;
use erm_log_disk::write_log;
use erm_model::{LAST_RUN, LEAST_BLOCK, RowLaw, STOP, Stamp};
use erm_outside::{Disk, Failed};
use erm_record::stored_words_tell_the_row;
use thiserror::Error;

/// How many bytes an Open block has.
const OPEN_BYTES: usize = WORD_BYTES * FRAME_WORDS;

/// Why a log was not opened.
#[derive(Clone, Copy, Debug, PartialEq, Eq, Error)]
pub enum OpenStop {
    /// The last run was the last one that there may be.
    #[error("no run comes after {run}")]
    RunsEnd {
        /// That run.
        run: u64,
    },
    /// The log has no room for transactions.
    #[error("the log has no room behind {tail}")]
    LogEnd {
        /// Its next free word.
        tail: Stamp,
    },
    /// The disk failed.
    #[error("the disk failed")]
    DiskFault,
}

impl From<Failed> for OpenStop {
    ghost use Rattle.std.specs.Prelude.{◌≡◌};
    ghost use Rattle.erm_recover.specs.declared.open.OpenStop.TheVariants.{DiskFault};

    ghost from_gives = { λ _ stop. stop ≡ DiskFault };

    fn from(_error: Failed) -> OpenStop {
        OpenStop::DiskFault
    }
}

/// The words of an Open block at this place, behind a block of this run.
fn open_words(at: Stamp, run: u64) -> [u64; FRAME_WORDS]
    requires run { run + 1 < RUN_END }
    requires at { at < STOP }
    ensures words { result ≡ spelling (open_block at run) }
    ensures block { IsBlock (open_block at run) at run }
{
    let block = Block {
        kind: Kind::Open,
        run: run + 1,
        stamp: at,
        succ: 0,
        seat: 0,
        number: 0,
        n: 0,
        size: FRAME_WORDS as u16,
        rows: ArrayVec::new(),
    };
    let mut words = [0; FRAME_WORDS];
    encode_into(&mut words, &block);
    words
}

/// Opens the next run of a log: waits until all lasts that recovery read, both slots and the segments from the one where it began up
/// to the one behind that of the place recovered, and each removal that an earlier run left pending; then writes its Open block there, and waits until it lasts. It answers the tail, the next
/// free word behind the block. It takes no memory.
pub fn open_log<D: Disk, L: RowLaw>(disk: &mut D, recovered: &Recovered) -> Result<Stamp, OpenStop>
    requires run { recovered.now.run < RUN_END }
    requires meets { L.law.meets (rows_of recovered.now.rows.items) }

    // What was done before may be pending still, but only of what is waited for.
    requires beyond { IfSome (D.told disk.old) (IsSettledBeyond recovered.now.base recovered.now.stamp) }

    // Behind the place no block of a later run than the last one reads.
    requires fresh { IfSome (D.told disk.old) (λ steps. IsFresh (recovered.now.run + 1) (contents steps) recovered.now.stamp) }

    // Where this was recovered of the disk, nothing is done but to wait until nothing is pending, and then each image at each moment
    // recovers to the rows recovered; after `Ok` to these in the raised run.
    ensures any_moment { (pair : Pair) → IfSome (D.told disk.old) (λ steps. IsRecovered L.law.meets steps recovered.now pair)
        → OpensTold L.law.meets (state_recovered recovered.now) pair (D.told disk.old) (D.told disk.new) }
    ensures lasts { OnOk result ((pair : Pair) → IfSome (D.told disk.old) (λ steps. IsRecovered L.law.meets steps recovered.now pair)
        → HoldsOpened L.law.meets (state_recovered recovered.now) pair (D.told disk.old) (D.told disk.new)) }
    ensures tail { IfOk result (λ tail. tail ≡ recovered.now.stamp + LEAST_BLOCK) }

    // Where it stops but for a fault nothing was done, and it tells what was recovered.
    ensures stops { StopsAs result recovered.now (D.told disk.old) (D.told disk.new) }

    // The end of runs comes before that of the log, and the disk's count of faults rises exactly where it failed.
    ensures runs_end { result ≡ Err (OpenStop.RunsEnd recovered.now.run) ↔ (LAST_RUN ≤ recovered.now.run) }
    ensures log_end { recovered.now.run < LAST_RUN → (result ≡ Err (OpenStop.LogEnd recovered.now.stamp) ↔ (STOP ≤ recovered.now.stamp)) }
    ensures sound { result ≢ Err OpenStop.DiskFault → D.faults disk.new ≡ D.faults disk.old }
    ensures fault { result ≡ Err OpenStop.DiskFault → Rose (D.faults disk.old) (D.faults disk.new) }
{
    stored_words_tell_the_row();
    L::respects_rows();
    if recovered.run >= LAST_RUN {
        return Err(OpenStop::RunsEnd { run: recovered.run });
    }
    if recovered.stamp >= STOP {
        return Err(OpenStop::LogEnd {
            tail: recovered.stamp,
        });
    }
    sync_pending(disk, recovered.base, recovered.stamp)?;
    let words = open_words(recovered.stamp, recovered.run);
    let mut bytes = [0; OPEN_BYTES];
    write_log(disk, recovered.stamp, &words, &mut bytes)?;
    Ok(recovered.stamp + LEAST_BLOCK)
}
