//! Flush turns of a pass whose flush seat may have a pin.
ghost use Rattle.std.specs.Prelude.{◌≡◌, ◌<◌, ◌≤◌, ◌*◌, false, IfSome, Some};
ghost use Rattle.erm_ckpt.specs.declared.slot.Slots.{Slots as DiskSlots};
ghost use Rattle.erm_ckpt.specs.declared.slot.TheConstants.{LOG_START};
ghost use Rattle.erm_desk.specs.Known.{AwaitsLog, HasEnded, HasStopped, KnowsLog};
ghost use Rattle.erm_desk.specs.Turns.{DidLook, DidStore, IsPinAt};
ghost use Rattle.erm_desk_checkpoint.specs.Kept.{sees_of};
ghost use Rattle.erm_desk_checkpoint.specs.Turns.{FlushesPast, HoldsKnown, MayFlushPast};
ghost use Rattle.erm_flush.specs.Over.{TurnsKnown, TurnsOver};
ghost use Rattle.erm_flush.specs.Turns.{Counts, IsReady};
ghost use Rattle.erm_outside.specs.Disk.{IsSettled};
ghost use Rattle.erm_ring.specs.Turns.{MayGather, WasOpen};
ghost use Rattle.erm_rule.specs.Books.{book};
ghost use Rattle.erm_rule.specs.Steps.{Fits};
ghost use Rattle.erm_rule.specs.Views.{view};
ghost use Rattle.erm_world.specs.Log.{Log};

use erm_checkpoint::CheckpointStop;
use erm_desk::FlushSeat;
use erm_flush::{FlushStop, Flusher};
use erm_model::{RowLaw, Stamp};
use erm_outside::Disk;
use erm_record::stored_words_tell_the_row;
use erm_rule::{Pass, Table};

/// A flush turn of a pass, whose pin is at this place where it has one: as `Flusher::turn_over`, by the pass's book. No memory is taken.
pub(crate) fn turn_pass<L: RowLaw, D: Disk>(
    t: &Table<L>,
    pass: &mut Pass,
    flusher: &mut Flusher,
    disk: &mut D,
    pin: Stamp,
) -> Result<Stamp, FlushStop>
    requires fits { Fits t.now.words.shared.table_id pass.old }
    requires may { MayGather (view pass.old) }
    requires place { IsPinAt pin (view pass.old) }
    requires settled { flusher.old ≡ false → IfSome (D.told disk.old) IsSettled }
    ensures fits { Fits t.now.words.shared.table_id pass.new }
    ensures may { MayGather (view pass.new) }
    ensures turn { TurnsOver (DidLook L.law) (DidStore L.law) result flusher.old flusher.new (book pass.old) (book pass.new) (D.told disk.old) (D.told disk.new) }
    ensures counts { Counts result (D.faults disk.old) (D.faults disk.new) }
    ensures known { (l : Log) → KnowsLog L.law (book pass.old) l → (flusher.old ≡ false → IfSome (D.told disk.old) (IsReady l))
        → TurnsKnown L.law.meets (KnowsLog L.law) (AwaitsLog L.law) HasEnded WasOpen HasStopped result l (book pass.old) (book pass.new) (D.told disk.old) (D.told disk.new) }
{
    let mut seat = FlushSeat {
        table: t,
        pass: &mut *pass,
        pin,
    };
    flusher.turn_over(disk, &mut seat)
}

/// Flush turns one after another, until the log is flushed up to the place of the pin or past it. Err: it is flushed up to a place below,
/// where a transaction's range began that wasn't decided; or the disk failed. No memory is taken. Each turn flushes further, so they end.
pub(crate) fn flush_past<L: RowLaw, D: Disk>(
    t: &Table<L>,
    pass: &mut Pass,
    flusher: &mut Flusher,
    disk: &mut D,
    place: Stamp,
) -> Result<(), CheckpointStop>
    requires fits { Fits t.now.words.shared.table_id pass.old }
    requires may { MayGather (view pass.old) }
    requires held { (l : Log) × (slots : DiskSlots) × HoldsKnown L.law slots l (sees_of (book pass.old) (D.told disk.old) (D.faults disk.old) flusher.old) × MayFlushPast place l }
    ensures fits { Fits t.now.words.shared.table_id pass.new }
    ensures may { MayGather (view pass.new) }
    ensures past { (l : Log) (slots : DiskSlots) → HoldsKnown L.law slots l (sees_of (book pass.old) (D.told disk.old) (D.faults disk.old) flusher.old) → MayFlushPast place l
        → FlushesPast L.law slots result place l (sees_of (book pass.old) (D.told disk.old) (D.faults disk.old) flusher.old)
        (sees_of (book pass.new) (D.told disk.new) (D.faults disk.new) flusher.new) }
{
    L::respects_rows();
    stored_words_tell_the_row();
    erm_core_stays::decided_blocks_stay();
    erm_crash::flushes_keep::<L>();
    erm_crash::moments_go_on::<L>();
    erm_crash::kept_logs_begin::<L>();
    erm_checkpoint::flushed_logs_are_held::<L>();
    erm_checkpoint::checkpoints_below_hold_logs::<L>();
    erm_log_disk::writes_join();
    erm_told_log::flushed_logs_meet_more::<L>();
    let mut flushed = 0;
    loop {
        match turn_pass(t, pass, flusher, disk, place) {
            Ok(end) => {
                if place <= end {
                    return Ok(());
                }
                flushed = end;
            }
            Err(FlushStop::Empty { .. }) => return Ok(()),
            Err(FlushStop::Unfilled { at }) => {
                if place <= at {
                    return Ok(());
                }
                return Err(CheckpointStop::Unfilled { at });
            }
            Err(FlushStop::DiskFault) => return Err(CheckpointStop::DiskFault),
            Err(FlushStop::Failed) => return Err(CheckpointStop::Failed),
        }
    }
}
