//! The desk.
ghost use Rattle.std.specs.Prelude.{◌≡◌, ◌<◌, ◌≤◌, ◌*◌, ◌^◌, false, IfOk, IfSome, OnErr, []};
ghost use Rattle.erm_checkpoint.specs.Taken.{HoldsLog};
ghost use Rattle.erm_ckpt.specs.Slots.{put_slot};
ghost use Rattle.erm_desk.specs.All.{TurnsAll};
ghost use Rattle.erm_desk.specs.Desk.{TurnsTo};
ghost use Rattle.erm_desk.specs.Known.{IsFlushedTo, flushed_log, opened_at};
ghost use Rattle.erm_desk.specs.Turns.{FlushSteps};
ghost use Rattle.erm_desk_checkpoint.specs.Checkpoints.{CheckpointsTo, slot_of};
ghost use Rattle.erm_desk_checkpoint.specs.Kept.{IsKept, MayLie, SeesSlots, sees_of};
ghost use Rattle.erm_desk_checkpoint.specs.Turns.{MayTurn, TurnsOn, WritesBehind};
ghost use Rattle.erm_pin.specs.Pins.{IsUnpinned};
ghost use Rattle.erm_ring.specs.Turns.{MayGather};
ghost use Rattle.erm_rule.specs.Books.{book};
ghost use Rattle.erm_rule.specs.Steps.{Fits};
ghost use Rattle.erm_rule.specs.Views.{MayJoin, view};
ghost use Rattle.erm_world.specs.Log.{Log};

use crate::flushing::turn_pass;
use crate::saving::save_behind;
use erm_checkpoint::{CheckpointStop, Checkpointer};
use erm_ckpt::{Slot, Slots, next_first, put_slot};
use erm_desk::{Naming, Stopped};
use erm_flush::{FlushStop, Flusher};
use erm_model::{RowLaw, Stamp};
use erm_outside::Disk;
use erm_record::stored_words_tell_the_row;
use erm_rule::{Pass, Table};
use std::marker::{Model, PhantomData};

/// A disk with the log and the checkpoints of a table, and the pass with the flush seat, which writes what is decided of the log to the disk,
/// and saves checkpoints of it. A contract sees the book of the pass, what the disk tells and its count of faults, whether it failed at a turn,
/// and the slots of the checkpoints.
#[derive(Drop)]
pub struct CheckpointDesk<L: RowLaw, D: Disk + Drop, B: Naming> {
    disk: D,
    pass: Pass,
    flusher: Flusher,
    checkpointer: Checkpointer,
    slots: Slots,
    run: u64,
    of: PhantomData<(L, B)>,
}

impl<L: RowLaw, D: Disk + Drop, B: Naming> Model for CheckpointDesk<L, D, B> {
    ghost use Rattle.std.specs.Prelude.{◌≡◌, ◌*◌};
    ghost use Rattle.erm_desk_checkpoint.specs.Kept.{IsKept, SeesSlots, sees_of};
    ghost use Rattle.erm_pin.specs.Pins.{IsUnpinned};
    ghost use Rattle.erm_rule.specs.Books.{book};
    ghost use Rattle.erm_rule.specs.Steps.{Fits};

    ghost Value = { SeesSlots };

    ghost view = { λ d. record { desk = sees_of (book d.pass) (D.told d.disk) (D.faults d.disk) d.flusher; slots = d.slots } };

    ghost invariant = { λ d. Fits B.table d.pass × IsUnpinned (book d.pass).view × (d.run ≡ B.start.run)
        × IsKept L.law B.start B.began B.faults d.slots (sees_of (book d.pass) (D.told d.disk) (D.faults d.disk) d.flusher) };
}

impl<L: RowLaw, D: Disk + Drop, B: Naming> CheckpointDesk<L, D, B> {
    /// A desk with a flusher that was just made, a disk that holds the log where the opening of this run begins it, from these slots, and a pass
    /// that has the flush seat, with which nothing was flushed yet. No later call takes memory.
    pub fn with(
        flusher: Flusher,
        disk: D,
        pass: Pass,
        checkpointer: Checkpointer,
        slots: Slots,
        run: u64,
    ) -> CheckpointDesk<L, D, B>
        requires new { flusher ≡ false }
        requires fits { Fits B.table pass }
        requires may { MayGather (view pass) }
        requires joins { MayJoin (view pass) }
        requires start { (book pass).start ≡ B.start }
        requires flushed { IsFlushedTo (book pass) B.start.tail }
        requires unpinned { IsUnpinned (view pass) }
        requires run { run ≡ B.start.run }
        requires lies { MayLie B.start }
        requires meets { L.law.meets (opened_at B.start).rows }
        requires began { D.told disk ≡ B.began }
        requires faults { D.faults disk ≡ B.faults }
        requires holds { IfSome (D.told disk) (HoldsLog L.law.meets (flushed_log B.start []) slots) }
        ensures new { result ≡ record { desk = sees_of (book pass) B.began B.faults false; slots = slots } }
    {
        erm_crash::kept_logs_begin::<L>();
        CheckpointDesk {
            disk,
            pass,
            flusher,
            checkpointer,
            slots,
            run,
            of: PhantomData,
        }
    }

    /// A flush turn: all that is decided of the log in order from the place flushed on is written to the disk, up to the first range that isn't
    /// or the log's end, and once it lasts there it is flushed. No memory is taken, and nobody is waited for but the disk.
    pub fn turn(&mut self, t: &Table<L>) -> Result<Stamp, FlushStop>
        requires table { t.now.words.shared.table_id ≡ B.table }
        ensures turns { TurnsTo L.law B.start result self.old.desk self.new.desk }
        // Where the disk hasn't failed, a log is known; and of each that is: nothing else was done than to write blocks behind what was flushed of it.
        ensures known { self.old.desk.failed ≡ false → (log : Log) × MayTurn L.law B.start self.old.slots log self.old.desk }
        ensures writes { (log : Log) → MayTurn L.law B.start self.old.slots log self.old.desk → TurnsOn L.law self.old.slots result log self.old.desk self.new.desk }
        ensures steps { FlushSteps L.law self.old.desk.book self.new.desk.book }
        ensures slots { self.new.slots ≡ self.old.slots }
    {
        stored_words_tell_the_row();
        erm_core_stays::decided_blocks_stay();
        erm_crash::flushes_keep::<L>();
        erm_crash::moments_go_on::<L>();
        erm_crash::kept_logs_begin::<L>();
        erm_checkpoint::flushed_logs_are_held::<L>();
        erm_log_disk::writes_join();
        erm_told_log::flushed_logs_meet_more::<L>();
        turn_pass(t, &mut self.pass, &mut self.flusher, &mut self.disk, 0)
    }

    /// Flush turns one after another, until one flushes nothing: then nothing more was decided in order, or the disk has failed. No memory is
    /// taken, and nobody is waited for but the disk. Each turn flushes further, so they end.
    pub fn turn_all(&mut self, t: &Table<L>) -> Stopped
        requires table { t.now.words.shared.table_id ≡ B.table }
        ensures turns { TurnsAll L.law B.start result.turns result.stop self.old.desk self.new.desk }
        ensures writes { self.old.desk.failed ≡ false → (log : Log) × WritesBehind L.law B.start log self.old.desk self.new.desk }
        ensures slots { self.new.slots ≡ self.old.slots }
    {
        stored_words_tell_the_row();
        erm_core_stays::decided_blocks_stay();
        erm_crash::flushes_keep::<L>();
        erm_crash::moments_go_on::<L>();
        erm_crash::kept_logs_begin::<L>();
        erm_checkpoint::flushed_logs_are_held::<L>();
        erm_log_disk::writes_join();
        erm_told_log::flushed_logs_meet_more::<L>();
        let mut turns = 0;
        let mut flushed = 0;
        loop {
            match self.turn(t) {
                Ok(end) => {
                    turns += 1;
                    flushed = end;
                }
                Err(stop) => return Stopped { turns, stop },
            }
        }
    }

    /// A checkpoint turn: pins the log's end, flushes up to it, reads every row as of it, saves the checkpoint to the slot that isn't best, waits
    /// until it lasts, removes the segments that are needed no more, and ends the pin. It answers the place pinned. No memory is taken,
    /// and nobody is waited for but the disk.
    pub fn checkpoint_turn(&mut self, t: &Table<L>) -> Result<Stamp, CheckpointStop>
        requires table { t.now.words.shared.table_id ≡ B.table }
        ensures checkpoints { CheckpointsTo L.law B.start self.old.slots result self.old.desk self.new.desk }
        // The slots are those from before, and where the checkpoint was saved its own.
        ensures slots { OnErr result (self.new.slots ≡ self.old.slots) }
        ensures put { IfOk result (λ stamp. self.new.slots ≡ put_slot self.old.slots (slot_of B.start stamp self.old.slots)) }
    {
        if self.flusher.has_failed() {
            return Err(CheckpointStop::Failed);
        }
        stored_words_tell_the_row();
        erm_core_stays::decided_blocks_stay();
        erm_crash::moments_go_on::<L>();
        erm_crash::kept_logs_begin::<L>();
        erm_crash::checkpoints_below_keep::<L>();
        erm_log_disk::writes_join();
        let stamp = erm_pin::pin(t, &mut self.pass);
        let slot = Slot {
            stamp,
            run: self.run,
            first: next_first(&self.slots),
        };
        let saved = save_behind(
            t,
            &mut self.pass,
            &mut self.flusher,
            &mut self.disk,
            &mut self.checkpointer,
            &self.slots,
            &slot,
        );
        erm_pin::unpin(t, &mut self.pass);
        if let Err(stop) = saved {
            return Err(stop);
        }
        put_slot(&mut self.slots, slot);
        Ok(stamp)
    }

    /// The desk of these parts, where what is so of a desk is so of them.
    pub fn of_parts(
        flusher: Flusher,
        disk: D,
        pass: Pass,
        checkpointer: Checkpointer,
        slots: Slots,
        run: u64,
    ) -> CheckpointDesk<L, D, B>
        requires fits { Fits B.table pass }
        requires unpinned { IsUnpinned (view pass) }
        requires run { run ≡ B.start.run }
        requires kept { IsKept L.law B.start B.began B.faults slots (sees_of (book pass) (D.told disk) (D.faults disk) flusher) }
        ensures same { result ≡ record { desk = sees_of (book pass) (D.told disk) (D.faults disk) flusher; slots = slots } }
    {
        CheckpointDesk {
            disk,
            pass,
            flusher,
            checkpointer,
            slots,
            run,
            of: PhantomData,
        }
    }

    /// The flusher, which knows whether the disk failed, the disk, the pass, the room for checkpoints, and the slots: what was so of the desk
    /// is so of them.
    pub fn into_parts(self) -> (Flusher, D, Pass, Checkpointer, Slots)
        ensures fits { Fits B.table result.2 }
        ensures unpinned { IsUnpinned (view result.2) }
        ensures kept { IsKept L.law B.start B.began B.faults result.4 (sees_of (book result.2) (D.told result.1) (D.faults result.1) result.0) }
        ensures same { record { desk = sees_of (book result.2) (D.told result.1) (D.faults result.1) result.0; slots = result.4 } ≡ self }
    {
        (
            self.flusher,
            self.disk,
            self.pass,
            self.checkpointer,
            self.slots,
        )
    }
}
