//! Slots from words.
ghost use Rattle.std.specs.Prelude.{◌≡◌, ◌↔◌, ℕ, Some, IfSome, IsTrue, length};
ghost use Rattle.erm_model.specs.Rows.{rows_of};
ghost use Rattle.erm_model.specs.RowTransaction.{SameRows};
ghost use Rattle.erm_block.specs.declared.block.Form.{Form as BlockForm};
ghost use Rattle.erm_ckpt.specs.Checkpoint.{Checkpoint, StandsIn, format_of, rows_of_checkpoint, zero_rows};
ghost use Rattle.erm_ckpt.specs.Reading.{BeginsWithRows, HasRows, IsSlotOf};

use crate::entry::read_entry;
use crate::{SLOT_HEAD, Slot, is_slot};
use erm_block::Form;
use erm_bytes::digest_word;
use erm_model::{OID_LIMIT, ROW_WORDS, Row, RowLaw};

/// A test of rows by a law.
pub trait RowTest: RowLaw {
    /// Whether these rows, one for each object that there may be, meet the law.
    fn test(&self, rows: &[Row]) -> bool
        requires { length rows.now ≡ OID_LIMIT }
        ensures { IsTrue result ↔ Self.law.meets (rows_of rows.now) };
}

/// Reads the slot at the front of the words, of either format, and its rows into `rows`. It answers `None` where no slot stands
/// there that checks: where the words aren't those of one by the grammar, the digest among them, or its rows don't meet the law.
/// What follows the slot isn't looked at. It takes no memory; after `None` the rows are any.
pub fn read_slot<T: RowTest>(words: &[u64], rows: &mut [Row], test: &T) -> Option<Slot>
    requires { length rows.old ≡ OID_LIMIT }
    ensures found { IfSome result (λ slot. IsSlotOf words.now rows.new slot) }
    ensures sound { IfSome result (λ slot. T.law.meets (rows_of rows.new)) }
    ensures given { (checkpoint : Checkpoint) → StandsIn words.now checkpoint → T.law.meets (rows_of_checkpoint checkpoint) → result ≡ Some checkpoint.slot }
{
    T::respects_rows();
    let slot = parse_slot(words, rows)?;
    test.test(rows).then_some(slot)
}

// Reads the slot at the front of the words, whatever its rows are.
fn parse_slot(words: &[u64], rows: &mut [Row]) -> Option<Slot>
    requires { length rows.old ≡ OID_LIMIT }
    ensures found { IfSome result (λ slot. IsSlotOf words.now rows.new slot) }
    ensures given { (checkpoint : Checkpoint) → StandsIn words.now checkpoint → (result ≡ Some checkpoint.slot) }
{
    if words.len() < SLOT_HEAD {
        return None;
    }
    let form = form_with(words[0])?;
    let slot = Slot {
        stamp: words[1],
        run: words[2],
        first: words[3],
    };
    if !is_slot(&slot) {
        return None;
    }
    let size = SLOT_HEAD + read_rows(&words[SLOT_HEAD..], form, words[4], rows)?;
    let digest = *words.get(size)?;
    (digest_word(&words[..size]) == digest).then_some(slot)
}

// The form of a format's rows.
fn form_with(word: u64) -> Option<Form>
    ensures found { IfSome result (λ form. word ≡ format_of form) }
    ensures given { (form : BlockForm) → word ≡ format_of form → result ≡ Some form }
{
    match word {
        1 => Some(Form::Whole),
        2 => Some(Form::Stored),
        _ => None,
    }
}

// Reads so many rows from the front of the words, their objects ascending, into `rows`, where all others are zero, and answers
// how many words they take.
fn read_rows(words: &[u64], form: Form, count: u64, rows: &mut [Row]) -> Option<usize>
    requires { length rows.old ≡ OID_LIMIT }
    ensures found { IfSome result (λ size. BeginsWithRows form words.now rows.new count size) }
    ensures given { (size : ℕ) → HasRows form words.now count size → result ≡ Some size }
{
    clear_rows(rows);
    let mut at = 0;
    let mut least = 0;
    for _row in 0..count {
        let ((oid, row), size) = read_entry(&words[at..], form)?;
        if oid < least {
            return None;
        }
        rows[oid as usize] = row;
        least = oid + 1;
        at += size;
    }
    Some(at)
}

/// Makes all rows zero, one for each object that there may be.
pub fn clear_rows(rows: &mut [Row])
    requires { length rows.old ≡ OID_LIMIT }
    ensures { SameRows (rows_of rows.new) zero_rows }
{
    for row in rows.iter_mut() {
        *row = [0; ROW_WORDS];
    }
}
