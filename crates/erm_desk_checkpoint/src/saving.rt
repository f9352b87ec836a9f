//! What lies between a pin and its end: the log is flushed up to the pin, and the checkpoint as of it is saved.
ghost use Rattle.std.specs.Prelude.{◌≡◌, ◌≤◌, ◌*◌, false, IfSome};
ghost use Rattle.erm_checkpoint.specs.Below.{IsSlotAt, SavesKnown, SavesPinned};
ghost use Rattle.erm_checkpoint.specs.Taken.{Counts, HoldsLogPast};
ghost use Rattle.erm_desk.specs.Known.{KnowsLog};
ghost use Rattle.erm_desk.specs.Turns.{DidWait, FlushSteps, IsPinAt};
ghost use Rattle.erm_desk_checkpoint.specs.Checkpoints.{FlushesAndSaves};
ghost use Rattle.erm_desk_checkpoint.specs.Kept.{sees_of};
ghost use Rattle.erm_desk_checkpoint.specs.Turns.{HoldsKnown, MayFlushPast};
ghost use Rattle.erm_log_view.specs.Views.{IsPinned};
ghost use Rattle.erm_ring.specs.Turns.{MayGather};
ghost use Rattle.erm_rule.specs.Books.{book};
ghost use Rattle.erm_rule.specs.Steps.{Fits};
ghost use Rattle.erm_rule.specs.Views.{view};
ghost use Rattle.erm_world.specs.Log.{Log};

use crate::flushing::flush_past;
use crate::seat::StepSeat;
use erm_checkpoint::{CheckpointStop, Checkpointer};
use erm_ckpt::{Slot, Slots};
use erm_desk::FlushSeat;
use erm_flush::Flusher;
use erm_model::RowLaw;
use erm_outside::Disk;
use erm_rule::{Pass, Table};

/// Saves a checkpoint of a pass's log, which is flushed up to the slot's place or past it and pinned there: as
/// `Checkpointer::save_pinned`, by the pass's book. No memory is taken.
pub(crate) fn save_pass<L: RowLaw, D: Disk>(
    t: &Table<L>,
    pass: &mut Pass,
    flusher: &mut Flusher,
    disk: &mut D,
    checkpointer: &mut Checkpointer,
    slots: &Slots,
    slot: &Slot,
) -> Result<(), CheckpointStop>
    requires fits { Fits t.now.words.shared.table_id pass.old }
    requires may { MayGather (view pass.old) }
    requires place { IsPinAt slot.now.stamp (view pass.old) }
    requires pinned { IsPinned (KnowsLog L.law) (book pass.old) }
    requires fine { flusher.old ≡ false }
    ensures fits { Fits t.now.words.shared.table_id pass.new }
    ensures may { MayGather (view pass.new) }
    ensures steps { FlushSteps L.law (book pass.old) (book pass.new) }
    ensures same { (l : Log) → KnowsLog L.law (book pass.old) l → KnowsLog L.law (book pass.new) l }
    ensures saves { SavesPinned (KnowsLog L.law) (DidWait L.law) result flusher.new (book pass.old) (book pass.new) }
    ensures counts { Counts result (D.faults disk.old) (D.faults disk.new) }
    ensures known { (l : Log) → KnowsLog L.law (book pass.old) l → IsSlotAt l slots.now slot.now → IfSome (D.told disk.old) (HoldsLogPast L.law.meets l slots.now slot.now.stamp)
        → SavesKnown L.law.meets result l slots.now slot.now (D.told disk.old) (D.told disk.new) }
{
    let mut seat = StepSeat {
        seat: FlushSeat {
            table: t,
            pass,
            pin: slot.stamp,
        },
    };
    checkpointer.save_pinned(flusher, disk, &mut seat, slots, slot)
}

/// Flushes the log up to the slot's place or past it, where it is pinned, and saves the checkpoint as of it. No memory is taken.
pub(crate) fn save_behind<L: RowLaw, D: Disk>(
    t: &Table<L>,
    pass: &mut Pass,
    flusher: &mut Flusher,
    disk: &mut D,
    checkpointer: &mut Checkpointer,
    slots: &Slots,
    slot: &Slot,
) -> Result<(), CheckpointStop>
    requires fits { Fits t.now.words.shared.table_id pass.old }
    requires may { MayGather (view pass.old) }
    requires held { (l : Log) × HoldsKnown L.law slots.now l (sees_of (book pass.old) (D.told disk.old) (D.faults disk.old) flusher.old) × MayFlushPast slot.now.stamp l }
    ensures fits { Fits t.now.words.shared.table_id pass.new }
    ensures may { MayGather (view pass.new) }
    ensures saves { (l : Log) → HoldsKnown L.law slots.now l (sees_of (book pass.old) (D.told disk.old) (D.faults disk.old) flusher.old) → MayFlushPast slot.now.stamp l
        → IsSlotAt l slots.now slot.now
        → FlushesAndSaves L.law slots.now slot.now result l (sees_of (book pass.old) (D.told disk.old) (D.faults disk.old) flusher.old)
        (sees_of (book pass.new) (D.told disk.new) (D.faults disk.new) flusher.new) }
{
    if let Err(stop) = flush_past(t, pass, flusher, disk, slot.stamp) {
        return Err(stop);
    }
    save_pass(t, pass, flusher, disk, checkpointer, slots, slot)
}
