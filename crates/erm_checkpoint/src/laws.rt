//! Laws of disks to which a checkpoint is saved.
ghost use Rattle.std.specs.Prelude.{◌≡◌, ◌≢◌, ◌/◌, ◌<◌, ◌≤◌, ◌⊎◌, ◌++◌, ℕ, List, [], None, Some};
ghost use Rattle.erm_block.specs.declared.block.Block.{Block};
ghost use Rattle.erm_bytes.specs.Bytes.{bytes_of};
ghost use Rattle.erm_flush.specs.Turns.{GoesOn, HoldsFrom, IsReady, WritesFrom};
ghost use Rattle.erm_model.specs.declared.limits.TheConstants.{LAST_RUN, LOG_END, SEGMENT_WORDS};
ghost use Rattle.erm_model.specs.Rows.{rows_of};
ghost use Rattle.erm_model.specs.RowTransaction.{SameRows};
ghost use Rattle.erm_world.specs.Log.{IsEnd, IsLog, Log};
ghost use Rattle.erm_ckpt.specs.declared.slot.Slot.{Slot as DiskSlot};
ghost use Rattle.erm_ckpt.specs.declared.slot.Slots.{Slots as DiskSlots};
ghost use Rattle.erm_ckpt.specs.declared.slot.TheConstants.{LOG_START};
ghost use Rattle.erm_ckpt.specs.Slots.{next_first, put_slot, removal_end};
ghost use Rattle.erm_checkpoint.specs.Saved.{AreRowsAt};
ghost use Rattle.erm_checkpoint.specs.Taken.{HoldsLog, HoldsLogFrom, HoldsLogPast, RecoversFlushing, state_at};
ghost use Rattle.erm_log_words.specs.Words.{word_at};
ghost use Rattle.erm_outside.specs.Disk.{AtEachMoment, IsSettled, Step, contents};
ghost use Rattle.erm_ckpt.specs.Checkpoint.{Checkpoint, IsCheckpoint, IsSlot, checkpoint_of, rows_of_checkpoint, slot_words};
ghost use Rattle.erm_ckpt.specs.Recovered.{Pair, State, base, best, state_behind};
ghost use Rattle.erm_ckpt.specs.States.{RecoversTo};
ghost use Rattle.erm_checkpoint.specs.Phases.{IsSaved, MaySave, RecoversTorn, other_file};
ghost use Rattle.erm_checkpoint.specs.Steps.{RemovesAll, RemovesPart, SavesAll, WritesPart, WritesSlot, slot_written};

use erm_model::RowLaw;
use erm_record::stored_words_tell_the_row;

/// While a checkpoint's slot is written, each image at each moment recovers to all that the disk recovered to, where it shows the
/// slot, or such slots as stood there, or none that checks. Once it was waited for, the disk does, from that slot's place on.
pub fn slots_are_saved<L: RowLaw>()
    ensures torn { (from : State) (front rest : List Block) (pair : Pair) (checkpoint : Checkpoint) (old new : List Step)
        → MaySave L.law.meets from front rest pair checkpoint old
        → WritesPart (other_file pair) (bytes_of (slot_words checkpoint)) old new ⊎ WritesSlot (other_file pair) (bytes_of (slot_words checkpoint)) old new
        → AtEachMoment (RecoversTorn L.law.meets (state_behind from (front ++ rest)) pair checkpoint (contents old)) old new }
    ensures saved { (from : State) (front rest : List Block) (pair : Pair) (checkpoint : Checkpoint) (old : List Step)
        → MaySave L.law.meets from front rest pair checkpoint old
        → IsSaved L.law.meets (state_behind from (front ++ rest)) pair checkpoint old (slot_written (other_file pair) (bytes_of (slot_words checkpoint)) old) }
{
    L::respects_rows();
}

/// While segments are removed that lie below the place where recovery begins, each image at each moment recovers to all that the
/// disk recovered to. Once all were waited for, nothing is pending; and each word of the log from that place on is as before.
pub fn removals_spare_the_log<L: RowLaw>()
    ensures moments { (state : State) (pair : Pair) (first end : ℕ) (old new : List Step)
        → IsSettled old → RecoversTo L.law.meets state pair (contents old) → best pair ≢ None → end ≤ (base pair).at / SEGMENT_WORDS
        → RemovesPart first end old new ⊎ RemovesAll first end old new → AtEachMoment (RecoversTo L.law.meets state pair) old new }
    ensures settled { (first end : ℕ) (old new : List Step) → IsSettled old → RemovesAll first end old new → IsSettled new }
    ensures words { (first end : ℕ) (old new : List Step) → RemovesPart first end old new ⊎ RemovesAll first end old new
        → (p : ℕ) → end ≤ p / SEGMENT_WORDS → word_at (contents new) p ≡ word_at (contents old) p }
{}

/// While a log is flushed that a disk held as far as it was, each image at each moment recovers to the state behind a front of what
/// was gathered, at or above the place flushed before, where it shows each block that is written whole or none there.
pub fn flushes_recover<L: RowLaw>()
    ensures { (before now : Log) (slots : DiskSlots) (old new : List Step) → HoldsLog L.law.meets before slots old
        → now.opened ≡ before.opened → ((rest : List Block) × (now.gathered ≡ before.gathered ++ rest)) → IsLog L.law.meets now
        → LOG_START < now.opened.at → (flushes : WritesFrom L.law.meets before.flushed now old new)
        → AtEachMoment (RecoversFlushing L.law.meets before.flushed now flushes.front flushes.blocks) old new }
{
    L::respects_rows();
    stored_words_tell_the_row();
}

/// Where a disk held a log as far as it was flushed, and the log was flushed further, the disk holds it so far too.
pub fn flushed_logs_are_held<L: RowLaw>()
    ensures { (before now : Log) (slots : DiskSlots) (old new : List Step) → HoldsLog L.law.meets before slots old
        → HoldsFrom L.law.meets before.flushed now old new → IsReady now new → GoesOn before now → IsLog L.law.meets now
        → LOG_START < now.opened.at → HoldsLog L.law.meets now slots new }
{
    L::respects_rows();
    stored_words_tell_the_row();
}

/// Where a disk holds a log as far as it is flushed, the checkpoint with the rows as of that place may be saved. Once it was, the
/// disk holds the log still, from the checkpoint's place on.
pub fn checkpoints_hold_logs<L: RowLaw>()
    ensures may { (log : Log) (slots : DiskSlots) (slot : DiskSlot) (rows : List (List ℕ)) (steps : List Step) (holds : HoldsLog L.law.meets log slots steps)
        → IsLog L.law.meets log → LOG_START < log.opened.at → log.opened.at ≤ LOG_END
        → slot.stamp ≡ log.flushed → slot.run ≡ log.opened.run → 1 ≤ slot.run → slot.run ≤ LAST_RUN → slot.first ≡ next_first slots
        → log.pinned ≡ Some slot.stamp → AreRowsAt log rows
        → (IsSlot slot → IsCheckpoint (checkpoint_of slot rows)) → SameRows (rows_of_checkpoint (checkpoint_of slot rows)) (rows_of rows)
        → MaySave L.law.meets (state_at log holds.front) [] [] holds.pair (checkpoint_of slot rows) steps }
    ensures saved { (log : Log) (slots : DiskSlots) (checkpoint : Checkpoint) (old new : List Step) (holds : HoldsLog L.law.meets log slots old)
        → MaySave L.law.meets (state_at log holds.front) [] [] holds.pair checkpoint old → checkpoint.slot.stamp ≡ log.flushed
        → SavesAll (other_file holds.pair) (bytes_of (slot_words checkpoint)) 0 (removal_end slots) old new
        → HoldsLogFrom L.law.meets log (put_slot slots checkpoint.slot) checkpoint.slot.stamp new }
{
    L::respects_rows();
    stored_words_tell_the_row();
}

/// The same where the log is flushed past the place of the checkpoint, which is at or above the one that was flushed before: from the
/// checkpoint's place on recovery reads the blocks behind it. At the place flushed there are none.
pub fn checkpoints_below_hold_logs<L: RowLaw>()
    ensures here { (log : Log) (slots : DiskSlots) (steps : List Step) → HoldsLog L.law.meets log slots steps → HoldsLogPast L.law.meets log slots log.flushed steps }
    ensures flushed { (before now : Log) (slots : DiskSlots) (old new : List Step) (place : ℕ) → HoldsLog L.law.meets before slots old
        → HoldsFrom L.law.meets before.flushed now old new → IsReady now new → GoesOn before now → IsLog L.law.meets now
        → LOG_START < now.opened.at → before.flushed ≤ place → place ≤ now.flushed → IsEnd now place → HoldsLogPast L.law.meets now slots place new }
    ensures low { (log : Log) (slots : DiskSlots) (place : ℕ) (steps : List Step) → HoldsLogPast L.law.meets log slots place steps → place ≤ log.flushed }
    ensures may { (log : Log) (slots : DiskSlots) (slot : DiskSlot) (rows : List (List ℕ)) (steps : List Step) (holds : HoldsLogPast L.law.meets log slots slot.stamp steps)
        → IsLog L.law.meets log → LOG_START < log.opened.at → log.opened.at ≤ LOG_END
        → slot.run ≡ log.opened.run → 1 ≤ slot.run → slot.run ≤ LAST_RUN → slot.first ≡ next_first slots
        → log.pinned ≡ Some slot.stamp → AreRowsAt log rows
        → (IsSlot slot → IsCheckpoint (checkpoint_of slot rows)) → SameRows (rows_of_checkpoint (checkpoint_of slot rows)) (rows_of rows)
        → MaySave L.law.meets (state_at log holds.front) [] holds.blocks holds.holds.pair (checkpoint_of slot rows) steps }
    ensures saved { (log : Log) (slots : DiskSlots) (checkpoint : Checkpoint) (old new : List Step) (holds : HoldsLogPast L.law.meets log slots checkpoint.slot.stamp old)
        → MaySave L.law.meets (state_at log holds.front) [] holds.blocks holds.holds.pair checkpoint old
        → SavesAll (other_file holds.holds.pair) (bytes_of (slot_words checkpoint)) 0 (removal_end slots) old new
        → HoldsLogFrom L.law.meets log (put_slot slots checkpoint.slot) checkpoint.slot.stamp new }
{
    L::respects_rows();
    stored_words_tell_the_row();
}
