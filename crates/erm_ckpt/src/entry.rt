//! A row of a slot, with its object's number, as words and from words.
ghost use Rattle.std.specs.Prelude.{◌≡◌, ◌<◌, ◌≤◌, ◌++◌, ◌↔◌, ℕ, List, Some, IfSome, IsTrue, length, drop};
ghost use Rattle.erm_block.specs.declared.block.Form.TheVariants.{Stored};
ghost use Rattle.erm_bytes.specs.Bytes.{AreWords};
ghost use Rattle.erm_block.specs.Block.{Entry};
ghost use Rattle.erm_block.specs.Spelling.{entry_words, row_words};
ghost use Rattle.erm_record.specs.Stored.{stored_length};
ghost use Rattle.erm_ckpt.specs.Checkpoint.{IsSaved};
ghost use Rattle.erm_ckpt.specs.Reading.{BeginsWithEntry, IsHead};

use erm_block::Form;
use erm_model::{OID_LIMIT, Oid, ROW_WORDS, Row};
use erm_record::stored_length;

/// What one more word of a row adds to its first word: below is the object's number.
const LENGTH_UNIT: u64 = 1 << 32;

/// Writes a row up to its last word that isn't 0 at the front of `out`, and answers how many words that are.
pub(crate) fn write_entry(out: &mut [u64], oid: Oid, row: &Row) -> usize
    requires { length (entry_words Stored (oid, row.now)) ≤ length out.old }
    ensures size { result ≡ length (entry_words Stored (oid, row.now)) }
    ensures words { out.new ≡ entry_words Stored (oid, row.now) ++ drop (length (entry_words Stored (oid, row.now))) out.old }
    ensures typed { AreWords row.now }
{
    let length = stored_length(row);
    out[0] = u64::from(oid) + LENGTH_UNIT * length as u64;
    out[1..1 + length].copy_from_slice(&row[..length]);
    1 + length
}

/// The row at the front of the words, with its object's number, and how many words it takes.
pub(crate) fn read_entry(words: &[u64], form: Form) -> Option<((Oid, Row), usize)>
    ensures found { IfSome result (λ found. BeginsWithEntry form words.now found.0 found.1) }
    ensures given { (entry : Entry) (size : ℕ) → BeginsWithEntry form words.now entry size → result ≡ Some (entry, size) }
{
    let (head, behind) = words.split_first()?;
    let (oid, length) = head_parts(form, *head)?;
    let mut row = [0; ROW_WORDS];
    row[..length].copy_from_slice(behind.get(..length)?);
    has_words(form, &row, length).then_some(((oid, row), 1 + length))
}

// The object's number in the first word of a row, and how many words follow.
fn head_parts(form: Form, word: u64) -> Option<(Oid, usize)>
    ensures found { IfSome result (λ parts. IsHead form word parts.0 parts.1) }
    ensures given { (oid length : ℕ) → IsHead form word oid length → result ≡ Some (oid, length) }
{
    let (oid, length) = match form {
        Form::Whole => (word, ROW_WORDS as u64),
        Form::Stored => (word % LENGTH_UNIT, word / LENGTH_UNIT),
    };
    if oid >= u64::from(OID_LIMIT) || length > ROW_WORDS as u64 {
        return None;
    }
    Some((oid as Oid, length as usize))
}

// Whether a row isn't zero and has so many words in this form.
fn has_words(form: Form, row: &Row, count: usize) -> bool
    ensures { IsTrue result ↔ ((0 < stored_length row.now) × (count ≡ length (row_words form row.now))) }
{
    let stored = stored_length(row);
    match form {
        Form::Whole => stored > 0 && count == ROW_WORDS,
        Form::Stored => stored > 0 && count == stored,
    }
}
