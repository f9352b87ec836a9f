//! The flusher.
ghost use Rattle.std.specs.Prelude.{◌≡◌, ◌<◌, ◌*◌, false, IfOk, IfSome, IsErr, IsErrOf, IsSome, IsTrue, OnOk, vec_len};
ghost use Rattle.erm_outside.specs.Disk.{IsSettled, Tells};
ghost use Rattle.erm_world.specs.Log.{Log};
ghost use Rattle.erm_flush.specs.declared.stops.FlushStop.{FlushStop as Stop};
ghost use Rattle.erm_flush.specs.Over.{TurnsKnown, TurnsOver};
ghost use Rattle.erm_flush.specs.Turns.{Counts, HoldsFrom, IsReady, Stays, Turns, TurnsAll, WritesFrom};

use crate::{FlushStop, WorldLog};
use erm_bytes::WORD_BYTES;
use erm_log_disk::write_log;
use erm_log_view::LogView;
use erm_model::{RING_WORDS, Stamp};
use erm_outside::Disk;
use erm_record::stored_words_tell_the_row;
use erm_world::{Gathered, LogWorld};
use std::alloc::{AllocError, Global};
use std::marker::Model;

/// Writes what a world's log gathers to a disk, and waits for it. After a disk fault it writes nothing more. A contract sees
/// whether it has failed.
#[derive(Drop)]
pub struct Flusher {
    words: Vec<u64>,
    bytes: Vec<u8>,
    failed: bool,
}

impl Model for Flusher {
    ghost use Rattle.std.specs.Prelude.{◌≡◌, ◌*◌, Bool, vec_len};
    ghost use Rattle.erm_bytes.specs.declared.bytes.TheConstants.{WORD_BYTES};
    ghost use Rattle.erm_model.specs.declared.limits.TheConstants.{RING_WORDS};

    ghost Value = { Bool };

    ghost view = { λ f. f.failed };

    ghost invariant = { λ f. (vec_len f.words ≡ RING_WORDS) × (vec_len f.bytes ≡ WORD_BYTES * RING_WORDS) };
}

impl Flusher {
    /// A flusher with room for the words of one ring, and for their bytes. No later call takes memory.
    pub fn new(alloc: Global) -> Result<Flusher, AllocError>
        ensures { IfOk result (λ flusher. flusher ≡ false) }
    {
        let words = Vec::from_elem(alloc, 0, RING_WORDS as usize)?;
        let bytes = Vec::from_elem(alloc, 0, WORD_BYTES * RING_WORDS as usize)?;
        Ok(Flusher {
            words,
            bytes,
            failed: false,
        })
    }

    /// A turn over a log that others may go on writing: writes all blocks that are decided from the place flushed on, up to the first that
    /// isn't or the log's end, and waits until they last; then the log is flushed up to the answer. No memory is taken.
    pub fn turn_over<D: Disk, V: LogView>(
        &mut self,
        disk: &mut D,
        world: &mut V,
    ) -> Result<Stamp, FlushStop>
        requires stands { V.stands world.old }
        // After a fault nothing is asked of the disk.
        requires settled { self.old ≡ false → IfSome (D.told disk.old) IsSettled }

        ensures stands { V.stands world.new }
        ensures keeps { V.keeps world.old world.new }
        ensures turn { TurnsOver V.gathers V.flushes result self.old self.new world.old world.new (D.told disk.old) (D.told disk.new) }
        ensures counts { Counts result (D.faults disk.old) (D.faults disk.new) }

        // What that means for the log, as far as it is known.
        ensures known { (l : Log) → V.knows world.old l → (self.old ≡ false → IfSome (D.told disk.old) (IsReady l))
            → TurnsKnown V.rows_law.meets V.knows V.awaits V.ended V.opened V.stopped result l world.old world.new (D.told disk.old) (D.told disk.new) }
    {
        if self.failed {
            return Err(FlushStop::Failed);
        }
        stored_words_tell_the_row();
        V::gathers_are_known();
        let (at, count) = match world.gather(&mut self.words) {
            Gathered::Empty { at } => return Err(FlushStop::Empty { at }),
            Gathered::Unfilled { at } => return Err(FlushStop::Unfilled { at }),
            Gathered::Words { at, count } => (at, count),
        };
        let words = &self.words[..count as usize];
        if write_log(disk, at, words, &mut self.bytes).is_err() {
            self.failed = true;
            return Err(FlushStop::DiskFault);
        }
        let end = at + count;
        world.flushed_to(end);
        Ok(end)
    }

    /// Writes all blocks that are decided from the place flushed on, up to the first that isn't or the log's end, and waits
    /// until they last; then the world's log is flushed up to the answer. No memory is taken.
    pub fn flush_turn<D: Disk, W: LogWorld>(
        &mut self,
        disk: &mut D,
        world: &mut W,
    ) -> Result<Stamp, FlushStop>
        requires stands { W.log_stands world.old }
        // After a fault nothing is asked of the disk.
        requires ready { self.old ≡ false → IfSome (D.told disk.old) (IsReady (W.log world.old)) }

        ensures stands { W.log_stands world.new }
        ensures keeps { W.keeps world.old world.new }
        ensures turn { Turns result self.old self.new (W.log world.old) (W.log world.new) }
        ensures counts { Counts result (D.faults disk.old) (D.faults disk.new) }
        ensures stays { Stays result (D.told disk.old) (D.told disk.new) }

        // At any moment each image has what was below the place flushed, and from there on a front of what was gathered.
        ensures any_moment { self.old ≡ false → Tells (WritesFrom W.rows_law.meets (W.log world.old).flushed (W.log world.new)) (D.told disk.old) (D.told disk.new) }
        ensures lasts { OnOk result (Tells (HoldsFrom W.rows_law.meets (W.log world.old).flushed (W.log world.new)) (D.told disk.old) (D.told disk.new)) }
        ensures ready { self.new ≡ false → IfSome (D.told disk.new) (IsReady (W.log world.new)) }
    {
        stored_words_tell_the_row();
        self.turn_over(disk, &mut WorldLog { world })
    }

    /// Whether the disk failed at an earlier call.
    pub fn has_failed(&self) -> bool
        ensures { result ≡ self.now }
    {
        self.failed
    }

    /// Says that the disk failed at a call that wasn't the flusher's: it writes nothing more.
    pub fn fail(&mut self)
        ensures { IsTrue self.new }
    {
        self.failed = true;
    }

    /// Takes turns until one stops, and answers what stopped it. No memory is taken.
    pub fn flush_all<D: Disk, W: LogWorld>(&mut self, disk: &mut D, world: &mut W) -> FlushStop
        requires stands { W.log_stands world.old }
        // After a fault nothing is asked of the disk.
        requires ready { self.old ≡ false → IfSome (D.told disk.old) (IsReady (W.log world.old)) }

        ensures stands { W.log_stands world.new }
        ensures keeps { W.keeps world.old world.new }
        ensures turns { TurnsAll result self.old self.new (W.log world.old) (W.log world.new) }
        ensures counts { Counts (Err result) (D.faults disk.old) (D.faults disk.new) }
        ensures still { IsTrue self.old → D.told disk.new ≡ D.told disk.old }

        // At any moment each image has what was below the place flushed, and from there on a front of what was gathered.
        ensures any_moment { self.old ≡ false → Tells (WritesFrom W.rows_law.meets (W.log world.old).flushed (W.log world.new)) (D.told disk.old) (D.told disk.new) }
        ensures lasts { self.new ≡ false → Tells (HoldsFrom W.rows_law.meets (W.log world.old).flushed (W.log world.new)) (D.told disk.old) (D.told disk.new) }
        ensures ready { self.new ≡ false → IfSome (D.told disk.new) (IsReady (W.log world.new)) }
    {
        stored_words_tell_the_row();
        loop {
            if let Err(stop) = self.flush_turn(disk, world) {
                return stop;
            }
        }
    }
}
