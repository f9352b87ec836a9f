//! Slots as words.
ghost use Rattle.std.specs.Prelude.{◌≡◌, ◌≤◌, length, take, drop};
ghost use Rattle.std.specs.List.{flat_map, All};
ghost use Rattle.erm_bytes.specs.Bytes.{AreWords};
ghost use Rattle.erm_block.specs.declared.block.Form.TheVariants.{Stored};
ghost use Rattle.erm_block.specs.Spelling.{entry_words};
ghost use Rattle.erm_model.specs.Rows.{rows_of};
ghost use Rattle.erm_model.specs.RowTransaction.{SameRows};
ghost use Rattle.erm_ckpt.specs.Checkpoint.{IsCheckpoint, IsSlot, checkpoint_of, rows_of_checkpoint, saved, slot_words};

use crate::entry::write_entry;
use crate::{SLOT_HEAD, Slot};
use erm_bytes::digest_word;
use erm_model::{OID_LIMIT, Oid, Row};
use erm_record::stored_length;

/// The format that is written.
const WRITTEN_FORMAT: u64 = 2;

/// Writes the one spelling, in format 2, of the checkpoint with these rows at the front of `out`, and answers how many words that
/// are. It takes no memory.
pub fn encode_slot(out: &mut [u64], slot: &Slot, rows: &[Row]) -> usize
    requires room { length (slot_words (checkpoint_of slot.now rows.now)) ≤ length out.old }
    requires count { length rows.now ≡ OID_LIMIT }
    ensures size { result ≡ length (slot_words (checkpoint_of slot.now rows.now)) }
    ensures spelled { take result out.new ≡ slot_words (checkpoint_of slot.now rows.now) }
    ensures kept { drop result out.new ≡ drop result out.old }

    // The checkpoint is one of the grammar where the slot may say this, and has these rows.
    ensures is { IsSlot slot.now → IsCheckpoint (checkpoint_of slot.now rows.now) }
    ensures rows { SameRows (rows_of_checkpoint (checkpoint_of slot.now rows.now)) (rows_of rows.now) }
{
    out[0] = WRITTEN_FORMAT;
    out[1] = slot.stamp;
    out[2] = slot.run;
    out[3] = slot.first;
    let (count, size) = write_rows(&mut out[SLOT_HEAD..], rows);
    out[4] = count;
    let end = SLOT_HEAD + size;
    out[end] = digest_word(&out[..end]);
    end + 1
}

// Writes the rows that aren't zero at the front of `out`, and answers how many they are and how many words they take.
fn write_rows(out: &mut [u64], rows: &[Row]) -> (u64, usize)
    requires count { length rows.now ≤ OID_LIMIT }
    requires room { length (flat_map (entry_words Stored) (saved rows.now)) ≤ length out.old }
    ensures count { result.0 ≡ length (saved rows.now) }
    ensures size { result.1 ≡ length (flat_map (entry_words Stored) (saved rows.now)) }
    ensures written { take result.1 out.new ≡ flat_map (entry_words Stored) (saved rows.now) }
    ensures kept { drop result.1 out.new ≡ drop result.1 out.old }
    ensures typed { All (λ entry. AreWords entry.1) (saved rows.now) }
{
    let (mut count, mut at) = (0, 0);
    for (oid, row) in rows.iter().enumerate() {
        if stored_length(row) == 0 {
            continue;
        }
        at += write_entry(&mut out[at..], oid as Oid, row);
        count += 1;
    }
    (count, at)
}
