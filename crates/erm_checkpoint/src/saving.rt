//! A slot, written.
ghost use Rattle.std.specs.Prelude.{◌≡◌, ◌*◌, OnErr, OnOk, length};
ghost use Rattle.erm_ckpt.specs.Checkpoint.{IsCheckpoint, IsSlot, checkpoint_of, rows_of_checkpoint};
ghost use Rattle.erm_ckpt.specs.Slots.{other_of, removal_end};
ghost use Rattle.erm_model.specs.Rows.{rows_of};
ghost use Rattle.erm_model.specs.RowTransaction.{SameRows};
ghost use Rattle.erm_outside.specs.Disk.{Tells};
ghost use Rattle.erm_outside.specs.Faults.{Rose};
ghost use Rattle.erm_checkpoint.specs.Saved.{slot_bytes};
ghost use Rattle.erm_checkpoint.specs.Steps.{SavesAll, SavesPart, WritesPart, WritesSlot};

use crate::remove_segments;
use erm_bytes::{WORD_BYTES, write_words};
use erm_ckpt::{SLOT_WORDS, Slot, Slots, encode_slot, other_of, removal_end};
use erm_model::{OID_LIMIT, Row};
use erm_outside::{Disk, Failed, File};

/// Writes the bytes of a slot to its file and waits until they last; and then removes each segment from `first` up to below `end`
/// that has bytes, the least first, and waits for each removal. It takes no memory.
pub fn save<D: Disk>(
    disk: &mut D,
    file: File,
    slot: &[u8],
    first: u64,
    end: u64,
) -> Result<(), Failed>
    ensures saved { OnOk result (Tells (SavesAll file slot.now first end) (D.told disk.old) (D.told disk.new)) }
    ensures part { OnErr result (Tells (SavesPart file slot.now first end) (D.told disk.old) (D.told disk.new)) }

    // The disk's count of faults rises exactly where the call fails.
    ensures sound { OnOk result (D.faults disk.new ≡ D.faults disk.old) }
    ensures failed { OnErr result (Rose (D.faults disk.old) (D.faults disk.new)) }
{
    write_slot(disk, file, slot)?;
    remove_segments(disk, first, end)
}

// Writes the bytes of a slot to its file, and waits until they last.
fn write_slot<D: Disk>(disk: &mut D, file: File, slot: &[u8]) -> Result<(), Failed>
    ensures written { OnOk result (Tells (WritesSlot file slot.now) (D.told disk.old) (D.told disk.new)) }
    ensures part { OnErr result (Tells (WritesPart file slot.now) (D.told disk.old) (D.told disk.new)) }
    ensures sound { OnOk result (D.faults disk.new ≡ D.faults disk.old) }
    ensures failed { OnErr result (Rose (D.faults disk.old) (D.faults disk.new)) }
{
    disk.write(file, 0, slot)?;
    disk.sync(file)
}

/// Saves the checkpoint with these rows: writes its slot to the file of the one that isn't best and waits until it lasts; and then
/// removes the segments below that of the best slot's place, as `save`: those too that an earlier checkpoint was to remove and was
/// stopped before. The words go through `words`, and the bytes through `bytes`; no memory is taken.
pub fn save_rows<D: Disk>(
    disk: &mut D,
    slots: &Slots,
    slot: &Slot,
    rows: &[Row],
    words: &mut [u64],
    bytes: &mut [u8],
) -> Result<(), Failed>
    requires count { length rows.now ≡ OID_LIMIT }
    requires words { length words.old ≡ SLOT_WORDS }
    requires bytes { length bytes.old ≡ WORD_BYTES * SLOT_WORDS }
    ensures saved { OnOk result (Tells (SavesAll (other_of slots.now) (slot_bytes slot.now rows.now) 0 (removal_end slots.now)) (D.told disk.old) (D.told disk.new)) }
    ensures part { OnErr result (Tells (SavesPart (other_of slots.now) (slot_bytes slot.now rows.now) 0 (removal_end slots.now)) (D.told disk.old) (D.told disk.new)) }

    // The checkpoint is one of the grammar where the slot may say this, and has these rows.
    ensures is { IsSlot slot.now → IsCheckpoint (checkpoint_of slot.now rows.now) }
    ensures rows { SameRows (rows_of_checkpoint (checkpoint_of slot.now rows.now)) (rows_of rows.now) }
    ensures sound { OnOk result (D.faults disk.new ≡ D.faults disk.old) }
    ensures failed { OnErr result (Rose (D.faults disk.old) (D.faults disk.new)) }
{
    let size = encode_slot(words, slot, rows);
    let spelled = &mut bytes[..WORD_BYTES * size];
    write_words(&words[..size], spelled);
    save(disk, other_of(slots), spelled, 0, removal_end(slots))
}
