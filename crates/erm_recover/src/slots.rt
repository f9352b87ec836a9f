//! Slots of a disk, and where recovery begins.
ghost use Rattle.std.specs.Prelude.{◌≡◌, ◌*◌, length, IfOk, IfSome, OnOk, OnErr};
ghost use Rattle.erm_model.specs.Rows.{rows_of};
ghost use Rattle.erm_outside.specs.Faults.{Rose};
ghost use Rattle.erm_ckpt.specs.Checkpoint.{IsSlot};
ghost use Rattle.erm_recover.specs.Recovering.{BaseTold, Begins, SlotRead, tail_of};

use crate::Tail;
use erm_bytes::{WORD_BYTES, read_words};
use erm_ckpt::{
    LOG_START, RowTest, SLOT_WORDS, Slot, Slots, files_have_the_slots_of_their_words, read_slot,
};
use erm_model::{OID_LIMIT, ROW_WORDS, Row};
use erm_outside::{Disk, Failed, File};

/// How many bytes the greatest slot has.
pub const SLOT_BYTES: usize = WORD_BYTES * SLOT_WORDS;

/// Reads the slot of a file, where it checks, and its rows into `rows`.
pub(crate) fn read_slot_of<D: Disk, T: RowTest>(
    disk: &mut D,
    test: &T,
    file: File,
    rows: &mut [Row],
    words: &mut [u64],
    bytes: &mut [u8],
) -> Result<Option<Slot>, Failed>
    requires count { length rows.old ≡ OID_LIMIT }
    requires words { length words.old ≡ SLOT_WORDS }
    requires bytes { length bytes.old ≡ SLOT_BYTES }
    ensures read { SlotRead T.law.meets result (D.told disk.old) file rows.new }
    ensures meets { IfOk result (λ found. IfSome found (λ slot. T.law.meets (rows_of rows.new))) }
    ensures is { IfOk result (λ found. IfSome found (λ slot. IsSlot slot)) }
    ensures told { D.told disk.new ≡ D.told disk.old }
    ensures sound { OnOk result (D.faults disk.new ≡ D.faults disk.old) }
    ensures failed { OnErr result (Rose (D.faults disk.old) (D.faults disk.new)) }
{
    files_have_the_slots_of_their_words();
    T::respects_rows();
    let count = disk.read(file, 0, bytes)? / WORD_BYTES;
    let words = &mut words[..count];
    read_words(&bytes[..WORD_BYTES * count], words);
    let found = read_slot(words, rows, test);
    Ok(found)
}

/// Whether, with no slot that checks, the log is whole: both slots' files are empty, or the first segment has bytes.
pub(crate) fn has_base<D: Disk>(disk: &mut D) -> Result<bool, Failed>
    ensures base { IfOk result (λ is. BaseTold (D.told disk.old) is) }
    ensures told { D.told disk.new ≡ D.told disk.old }
    ensures sound { OnOk result (D.faults disk.new ≡ D.faults disk.old) }
    ensures failed { OnErr result (Rose (D.faults disk.old) (D.faults disk.new)) }
{
    let slot0 = disk.len(File::Slot0)?;
    let slot1 = disk.len(File::Slot1)?;
    let first = disk.len(File::Segment(0))?;
    Ok((slot0 == 0 && slot1 == 0) || first > 0)
}

/// Where recovery begins. It leaves the rows there in `rows`, which has those of the first slot; `other` has those of the second.
pub(crate) fn begin(slots: &Slots, rows: &mut [Row], other: &[Row]) -> Tail
    requires count { length rows.old ≡ OID_LIMIT }
    requires count_other { length other.now ≡ OID_LIMIT }
    ensures { Begins slots.now.slot0 slots.now.slot1 rows.old other.now result rows.new }
{
    match (slots.slot0, slots.slot1) {
        (Some(a), Some(b)) if a.stamp < b.stamp => begin_with(&b, rows, other),
        (Some(a), _) => tail_of(&a),
        (None, Some(b)) => begin_with(&b, rows, other),
        (None, None) => {
            rows.fill([0; ROW_WORDS]);
            Tail {
                at: LOG_START,
                run: 0,
            }
        }
    }
}

// Recovery begins at the second slot.
fn begin_with(slot: &Slot, rows: &mut [Row], other: &[Row]) -> Tail
    requires { length rows.old ≡ length other.now }
    ensures tail { result ≡ tail_of slot.now }
    ensures rows { rows.new ≡ other.now }
{
    rows.copy_from_slice(other);
    tail_of(slot)
}

// Where a slot says that the log goes on.
fn tail_of(slot: &Slot) -> Tail
    ensures { result ≡ tail_of slot.now }
{
    Tail {
        at: slot.stamp,
        run: slot.run,
    }
}
