//! Taking checkpoints.
ghost use Rattle.std.specs.Prelude.{◌≡◌, ◌<◌, ◌≤◌, false, None, Some, IfOk, IfSome, IsTrue, OnErr, OnOk};
ghost use Rattle.erm_ckpt.specs.declared.slot.TheConstants.{LOG_START};
ghost use Rattle.erm_ckpt.specs.Slots.{next_first, put_slot};
ghost use Rattle.erm_log_view.specs.Views.{IsPinned};
ghost use Rattle.erm_model.specs.declared.limits.TheConstants.{LAST_RUN, LOG_END};
ghost use Rattle.erm_outside.specs.Disk.{Tells};
ghost use Rattle.erm_world.specs.Log.{Log};
ghost use Rattle.erm_checkpoint.specs.Below.{IsSlotAt, SavesKnown, SavesPinned};
ghost use Rattle.erm_checkpoint.specs.Taken.{Checkpoints, Counts, HoldsLog, HoldsLogFrom, HoldsLogPast, Takes, TakesAll, TakesAt, slot_at_end};

use crate::{CheckpointStop, read_pinned, read_rows, save_rows};
use erm_bytes::WORD_BYTES;
use erm_ckpt::{SLOT_WORDS, Slot, Slots, next_first, put_slot};
use erm_flush::{FlushStop, Flusher};
use erm_log_view::PinnedLog;
use erm_model::{OID_LIMIT, ROW_WORDS, Row, Stamp};
use erm_outside::Disk;
use erm_record::stored_words_tell_the_row;
use erm_world::LogWorld;
use std::alloc::{AllocError, Global};
use std::marker::Model;

/// Takes checkpoints of a world's log: it has room for all rows, and for the words and the bytes of a slot.
#[derive(Drop)]
pub struct Checkpointer {
    rows: Vec<Row>,
    words: Vec<u64>,
    bytes: Vec<u8>,
}

impl Model for Checkpointer {
    ghost use Rattle.std.specs.Prelude.{◌≡◌, ◌*◌, vec_len};
    ghost use Rattle.erm_bytes.specs.declared.bytes.TheConstants.{WORD_BYTES};
    ghost use Rattle.erm_ckpt.specs.declared.slot.TheConstants.{SLOT_WORDS};
    ghost use Rattle.erm_model.specs.declared.limits.TheConstants.{OID_LIMIT};

    ghost Value = { Unit {0} };

    ghost view = { λ _. tt };

    ghost invariant = { λ c. (vec_len c.rows ≡ OID_LIMIT) × (vec_len c.words ≡ SLOT_WORDS) × (vec_len c.bytes ≡ WORD_BYTES * SLOT_WORDS) };
}

impl Checkpointer {
    /// Room for the rows and for a slot. No later call takes memory.
    pub fn new(alloc: Global) -> Result<Checkpointer, AllocError> {
        let rows = Vec::from_elem(alloc, [0; ROW_WORDS], OID_LIMIT as usize)?;
        let words = Vec::from_elem(alloc, 0, SLOT_WORDS)?;
        let bytes = Vec::from_elem(alloc, 0, WORD_BYTES * SLOT_WORDS)?;
        Ok(Checkpointer { rows, words, bytes })
    }

    /// Takes a checkpoint: pins the log's end, flushes up to it, and reads every row as of it; then writes the slot that isn't best
    /// and waits until it lasts, and removes the segments that are needed no more and waits for each: all below that of the best slot's
    /// place. It answers the place pinned.
    /// On each exit the log is unpinned. No memory is taken.
    pub fn checkpoint_turn<D: Disk, W: LogWorld>(
        &mut self,
        flusher: &mut Flusher,
        disk: &mut D,
        world: &mut W,
        slots: &mut Slots,
        run: u64,
    ) -> Result<Stamp, CheckpointStop>
        requires stands { W.log_stands world.old }
        requires unpinned { (W.log world.old).pinned ≡ None }
        requires run { run ≡ (W.log world.old).opened.run }
        requires run_low { 1 ≤ run }
        requires run_high { run ≤ LAST_RUN }
        requires begins { LOG_START < (W.log world.old).opened.at }
        requires high { (W.log world.old).opened.at ≤ LOG_END }

        // After a fault nothing is asked of the disk.
        requires holds { flusher.old ≡ false → IfSome (D.told disk.old) (HoldsLog W.rows_law.meets (W.log world.old) slots.old) }

        ensures stands { W.log_stands world.new }
        ensures keeps { W.keeps world.old world.new }
        ensures checkpoints { Checkpoints result flusher.old flusher.new (W.log world.old) (W.log world.new) }
        ensures counts { Counts result (D.faults disk.old) (D.faults disk.new) }
        ensures still { IsTrue flusher.old → D.told disk.new ≡ D.told disk.old }

        // The log is flushed, and then the checkpoint is saved to a disk from which it may be: by the laws of both each image
        // at each moment recovers to a place at or above that flushed before, and to all from the slot's write on.
        ensures any_moment { flusher.old ≡ false → Tells (Takes W.rows_law.meets (W.log world.old).flushed (W.log world.new) slots.old (slot_at_end (W.log world.new) run slots.old)) (D.told disk.old) (D.told disk.new) }

        // After `Ok` all of it was done: the slot was written, and each segment that is needed no more was removed.
        ensures saved { OnOk result (Tells (TakesAll W.rows_law.meets (W.log world.old).flushed (W.log world.new) slots.old (slot_at_end (W.log world.new) run slots.old)) (D.told disk.old) (D.told disk.new)) }
        ensures lasts { IfOk result (λ stamp. IfSome (D.told disk.new) (HoldsLogFrom W.rows_law.meets (W.log world.new) slots.new stamp)) }
        ensures stays { flusher.new ≡ false → IfSome (D.told disk.new) (HoldsLog W.rows_law.meets (W.log world.new) slots.new) }

        // The slots are those that were given, and where the checkpoint was taken its own.
        ensures slots { OnErr result (slots.new ≡ slots.old) }
        ensures put { OnOk result (slots.new ≡ put_slot slots.old (slot_at_end (W.log world.new) run slots.old)) }
    {
        let stamp = world.pin();
        let slot = Slot {
            stamp,
            run,
            first: next_first(slots),
        };
        let taken = self.take(flusher, disk, world, slots, &slot);
        world.unpin();
        taken?;
        put_slot(slots, slot);
        Ok(stamp)
    }

    /// Takes a checkpoint of a log that others may go on writing, which is flushed up to the place pinned or past it: reads every row as of
    /// it; then writes the slot that isn't best and waits until it lasts, and removes the segments that are needed no more, as
    /// `checkpoint_turn`. No memory is taken.
    pub fn save_pinned<D: Disk, V: PinnedLog>(
        &mut self,
        flusher: &mut Flusher,
        disk: &mut D,
        log: &mut V,
        slots: &Slots,
        slot: &Slot,
    ) -> Result<(), CheckpointStop>
        requires stands { V.stands log.old }
        requires pinned { IsPinned V.knows log.old }
        requires fine { flusher.old ≡ false }
        ensures stands { V.stands log.new }
        ensures keeps { V.keeps log.old log.new }
        ensures same { (l : Log) → V.knows log.old l → V.knows log.new l }
        ensures saves { SavesPinned V.knows V.waits result flusher.new log.old log.new }
        ensures counts { Counts result (D.faults disk.old) (D.faults disk.new) }

        // What that means for a log that is known, where the disk holds it past the place pinned.
        ensures known { (l : Log) → V.knows log.old l → IsSlotAt l slots.now slot.now → IfSome (D.told disk.old) (HoldsLogPast V.rows_law.meets l slots.now slot.now.stamp)
            → SavesKnown V.rows_law.meets result l slots.now slot.now (D.told disk.old) (D.told disk.new) }
    {
        stored_words_tell_the_row();
        V::respects_rows();
        V::gathers_are_known();
        if let Err(wait) = read_pinned(log, &mut self.rows) {
            return Err(CheckpointStop::NotYet {
                seat: wait.seat,
                seen: wait.seen,
            });
        }
        if save_rows(
            disk,
            slots,
            slot,
            &self.rows,
            &mut self.words,
            &mut self.bytes,
        )
        .is_err()
        {
            flusher.fail();
            return Err(CheckpointStop::DiskFault);
        }
        Ok(())
    }

    // Takes a checkpoint as of the place pinned, which is the log's end.
    fn take<D: Disk, W: LogWorld>(
        &mut self,
        flusher: &mut Flusher,
        disk: &mut D,
        world: &mut W,
        slots: &Slots,
        slot: &Slot,
    ) -> Result<(), CheckpointStop>
        requires stands { W.log_stands world.old }
        requires pinned { (W.log world.old).pinned ≡ Some slot.now.stamp }
        requires place { slot.now.stamp ≡ (W.log world.old).tail }
        requires run { slot.now.run ≡ (W.log world.old).opened.run }
        requires run_low { 1 ≤ slot.now.run }
        requires run_high { slot.now.run ≤ LAST_RUN }
        requires first { slot.now.first ≡ next_first slots.now }
        requires begins { LOG_START < (W.log world.old).opened.at }
        requires high { (W.log world.old).opened.at ≤ LOG_END }
        requires holds { flusher.old ≡ false → IfSome (D.told disk.old) (HoldsLog W.rows_law.meets (W.log world.old) slots.now) }
        ensures stands { W.log_stands world.new }
        ensures keeps { W.keeps world.old world.new }
        ensures takes { TakesAt result flusher.old flusher.new (W.log world.old) (W.log world.new) }
        ensures counts { Counts result (D.faults disk.old) (D.faults disk.new) }
        ensures still { IsTrue flusher.old → D.told disk.new ≡ D.told disk.old }
        ensures any_moment { flusher.old ≡ false → Tells (Takes W.rows_law.meets (W.log world.old).flushed (W.log world.new) slots.now slot.now) (D.told disk.old) (D.told disk.new) }
        ensures saved { OnOk result (Tells (TakesAll W.rows_law.meets (W.log world.old).flushed (W.log world.new) slots.now slot.now) (D.told disk.old) (D.told disk.new)) }
        ensures lasts { OnOk result (IfSome (D.told disk.new) (HoldsLogFrom W.rows_law.meets (W.log world.new) (put_slot slots.now slot.now) slot.now.stamp)) }
        ensures stays { OnErr result (flusher.new ≡ false → IfSome (D.told disk.new) (HoldsLog W.rows_law.meets (W.log world.new) slots.now)) }
    {
        stored_words_tell_the_row();
        W::respects_rows();
        match flusher.flush_all(disk, world) {
            FlushStop::Empty { .. } => {}
            FlushStop::Unfilled { at } => return Err(CheckpointStop::Unfilled { at }),
            FlushStop::DiskFault => return Err(CheckpointStop::DiskFault),
            FlushStop::Failed => return Err(CheckpointStop::Failed),
        }
        if let Err(wait) = read_rows(world, &mut self.rows) {
            return Err(CheckpointStop::NotYet {
                seat: wait.seat,
                seen: wait.seen,
            });
        }
        if save_rows(
            disk,
            slots,
            slot,
            &self.rows,
            &mut self.words,
            &mut self.bytes,
        )
        .is_err()
        {
            flusher.fail();
            return Err(CheckpointStop::DiskFault);
        }
        Ok(())
    }
}
