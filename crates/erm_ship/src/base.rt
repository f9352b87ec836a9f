//! The checkpoint in front of a stream.
ghost use Rattle.std.specs.Prelude.{◌≡◌, ◌*◌, ◌≤◌, length, take, None, IfErr, IfNone, IfOk, IfSome, OnErr, OnOk};
ghost use Rattle.erm_model.specs.Rows.{rows_of};
ghost use Rattle.erm_model.specs.RowTransaction.{SameRows};
ghost use Rattle.erm_node.specs.Sound.{sound_law};
ghost use Rattle.erm_outside.specs.Faults.{Rose};
ghost use Rattle.erm_ckpt.specs.Recovered.{Pair, best, slots_of};
ghost use Rattle.erm_ckpt.specs.Checkpoint.{IsCheckpoint, IsSlot, checkpoint_of, rows_of_checkpoint};
ghost use Rattle.erm_recover.specs.Recovering.{SlotRead};
ghost use Rattle.erm_replica.specs.Stream.{part_words};
ghost use Rattle.erm_replica.specs.Stream.Part.{base};
ghost use Rattle.erm_ship.specs.Bases.{FindsBase, IsBestFile, LaysBase, MissesBase};

use crate::stop::ShipStop;
use erm_bytes::{WORD_BYTES, read_words};
use erm_ckpt::{
    LOG_START, SLOT_WORDS, Slot, Slots, encode_slot, files_have_the_slots_of_their_words,
    one_checkpoint, read_slot,
};
use erm_model::{OID_LIMIT, ROW_WORDS, Row, RowLaw};
use erm_outside::{Disk, Failed, File};
use erm_recover::{SLOT_BYTES, SoundTest};
use erm_replica::LogPlace;

/// The most words of a checkpoint in front of a stream: those of the greatest slot, and their number.
pub const BASE_WORDS: usize = SLOT_WORDS + 1;

/// How many bytes these words have.
pub const BASE_BYTES: usize = WORD_BYTES * BASE_WORDS;

/// A checkpoint that was laid out in words.
#[derive(Clone, Copy)]
pub(crate) struct Laid {
    /// How many words it has, their number among them.
    pub size: usize,
    /// Where the log goes on behind it.
    pub log: LogPlace,
}

/// Lays out the checkpoint of the best slot, which is read again, or that of the start of the log. The words are left in `words`.
pub(crate) fn lay_base<D: Disk>(
    disk: &mut D,
    slots: &Slots,
    rows: &mut [Row],
    words: &mut [u64],
    bytes: &mut [u8],
) -> Result<Laid, ShipStop>
    requires rows { length rows.old ≡ OID_LIMIT }
    requires words { length words.old ≡ BASE_WORDS }
    requires bytes { length bytes.old ≡ BASE_BYTES }
    ensures laid { IfOk result (λ laid. LaysBase (D.told disk.old) slots.now laid words.new) }
    ensures misses { IfErr result (λ stop. (stop ≡ ShipStop.DiskFault) × MissesBase (D.told disk.old) slots.now (D.faults disk.old) (D.faults disk.new)) }
    ensures told { D.told disk.new ≡ D.told disk.old }
    ensures sound { OnOk result (D.faults disk.new ≡ D.faults disk.old) }
{
    let slot = find_base(disk, slots, rows, words, bytes)?;
    let size = spell_base(&slot, rows, words);
    Ok(Laid {
        size,
        log: LogPlace {
            at: slot.stamp,
            run: slot.run,
        },
    })
}

// Writes the checkpoint with these rows at the front of words, behind how many words it has, and answers how many words that are.
fn spell_base(slot: &Slot, rows: &[Row], words: &mut [u64]) -> usize
    requires count { length rows.now ≡ OID_LIMIT }
    requires words { length words.old ≡ BASE_WORDS }
    ensures few { result ≤ length words.old }
    ensures spelled { take result words.new ≡ part_words (base (checkpoint_of slot.now rows.now)) }
    ensures is { IsSlot slot.now → IsCheckpoint (checkpoint_of slot.now rows.now) }
    ensures rows { SameRows (rows_of_checkpoint (checkpoint_of slot.now rows.now)) (rows_of rows.now) }
{
    let size = encode_slot(&mut words[1..], slot, rows);
    words[0] = size as u64;
    size + 1
}

// What the slot in front of a stream says, with its rows.
fn find_base<D: Disk>(
    disk: &mut D,
    slots: &Slots,
    rows: &mut [Row],
    words: &mut [u64],
    bytes: &mut [u8],
) -> Result<Slot, ShipStop>
    requires rows { length rows.old ≡ OID_LIMIT }
    requires words { length words.old ≡ BASE_WORDS }
    requires bytes { length bytes.old ≡ BASE_BYTES }
    ensures found { IfOk result (λ slot. FindsBase (D.told disk.old) slots.now slot rows.new) }
    ensures misses { IfErr result (λ stop. (stop ≡ ShipStop.DiskFault) × MissesBase (D.told disk.old) slots.now (D.faults disk.old) (D.faults disk.new)) }
    ensures told { D.told disk.new ≡ D.told disk.old }
    ensures sound { OnOk result (D.faults disk.new ≡ D.faults disk.old) }
{
    one_checkpoint::<SoundTest>();
    let Some((file, best)) = best_file(slots) else {
        rows.fill([0; ROW_WORDS]);
        return Ok(Slot {
            stamp: LOG_START,
            run: 0,
            first: 0,
        });
    };
    let found = read_front(disk, file, rows, words, bytes)?;
    if found != Some(best) {
        return Err(ShipStop::DiskFault);
    }
    Ok(Slot {
        stamp: best.stamp,
        run: best.run,
        first: 0,
    })
}

// The file of the best slot, and what it says.
fn best_file(slots: &Slots) -> Option<(File, Slot)>
    ensures some { IfSome result (λ found. (pair : Pair) → slots.now ≡ slots_of pair → IsBestFile pair found.0 found.1) }
    ensures none { IfNone result ((pair : Pair) → slots.now ≡ slots_of pair → best pair ≡ None) }
{
    match (slots.slot0, slots.slot1) {
        (Some(a), Some(b)) if a.stamp < b.stamp => Some((File::Slot1, b)),
        (Some(a), _) => Some((File::Slot0, a)),
        (None, Some(b)) => Some((File::Slot1, b)),
        (None, None) => None,
    }
}

// Reads the slot of a file with room for a checkpoint's words.
fn read_front<D: Disk>(
    disk: &mut D,
    file: File,
    rows: &mut [Row],
    words: &mut [u64],
    bytes: &mut [u8],
) -> Result<Option<Slot>, Failed>
    requires count { length rows.old ≡ OID_LIMIT }
    requires words { length words.old ≡ BASE_WORDS }
    requires bytes { length bytes.old ≡ BASE_BYTES }
    ensures read { SlotRead sound_law.meets result (D.told disk.old) file rows.new }
    ensures is { IfOk result (λ found. IfSome found (λ slot. IsSlot slot)) }
    ensures told { D.told disk.new ≡ D.told disk.old }
    ensures sound { OnOk result (D.faults disk.new ≡ D.faults disk.old) }
    ensures failed { OnErr result (Rose (D.faults disk.old) (D.faults disk.new)) }
{
    let words = &mut words[..SLOT_WORDS];
    let bytes = &mut bytes[..SLOT_BYTES];
    read_file(disk, file, rows, words, bytes)
}

// Reads the slot of a file, where it checks, and its rows.
fn read_file<D: Disk>(
    disk: &mut D,
    file: File,
    rows: &mut [Row],
    words: &mut [u64],
    bytes: &mut [u8],
) -> Result<Option<Slot>, Failed>
    requires count { length rows.old ≡ OID_LIMIT }
    requires words { length words.old ≡ SLOT_WORDS }
    requires bytes { length bytes.old ≡ SLOT_BYTES }
    ensures read { SlotRead sound_law.meets result (D.told disk.old) file rows.new }
    ensures is { IfOk result (λ found. IfSome found (λ slot. IsSlot slot)) }
    ensures told { D.told disk.new ≡ D.told disk.old }
    ensures sound { OnOk result (D.faults disk.new ≡ D.faults disk.old) }
    ensures failed { OnErr result (Rose (D.faults disk.old) (D.faults disk.new)) }
{
    files_have_the_slots_of_their_words();
    SoundTest::respects_rows();
    let count = disk.read(file, 0, bytes)? / WORD_BYTES;
    let words = &mut words[..count];
    read_words(&bytes[..WORD_BYTES * count], words);
    let found = read_slot(words, rows, &SoundTest);
    Ok(found)
}
