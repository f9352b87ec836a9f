//! The entries of a block, objects with their rows, as words and from words.
ghost use Rattle.std.specs.Prelude.{◌≡◌, ℕ, ◌≤◌, ◌++◌, List, Some, IfSome, length, drop};
ghost use Rattle.std.specs.List.{flat_map, All};
ghost use Rattle.erm_block.specs.declared.block.Form.TheVariants.{Stored};
ghost use Rattle.erm_block.specs.Block.{Entry, IsEntry, size_with};
ghost use Rattle.erm_block.specs.Spelling.{entry_words, first_word, row_words};

use crate::words::LENGTH_UNIT;
use crate::{BLOCK_ROWS, ENTRY_WORDS, FRAME_WORDS, Form};
use arrayvec::ArrayVec;
use erm_model::{OID_LIMIT, Oid, ROW_WORDS, Row};
use erm_record::{stored_length, stored_words, stored_words_tell_the_row};

/// The size of a block with these rows, in words.
pub fn size_with(form: Form, entries: &[(Oid, Row)]) -> usize
    requires { length entries.now ≤ BLOCK_ROWS }
    ensures { result ≡ size_with form entries.now }
{
    match form {
        Form::Whole => FRAME_WORDS + ENTRY_WORDS * entries.len(),
        Form::Stored => stored_size(entries),
    }
}

// The size of a block with these rows, each up to its last word that isn't 0.
fn stored_size(entries: &[(Oid, Row)]) -> usize
    requires { length entries.now ≤ BLOCK_ROWS }
    ensures { result ≡ size_with Stored entries.now }
{
    let mut size = FRAME_WORDS;
    for entry in entries {
        size += stored_words(&entry.1);
    }
    size
}

/// Writes the entries over all of `out`.
pub fn write_entries(out: &mut [u64], form: Form, entries: &[(Oid, Row)])
    requires { length out.old ≡ length (flat_map (entry_words form) entries.now) }
    ensures { out.new ≡ flat_map (entry_words form) entries.now }
{
    let mut at = 0;
    for entry in entries {
        at += write_entry(&mut out[at..], form, entry);
    }
}

// Writes an entry at the front of `out`, and answers how many words that are.
fn write_entry(out: &mut [u64], form: Form, entry: &(Oid, Row)) -> usize
    requires { length (entry_words form entry.now) ≤ length out.old }
    ensures size { result ≡ length (entry_words form entry.now) }
    ensures words { out.new ≡ entry_words form entry.now ++ drop (length (entry_words form entry.now)) out.old }
{
    let row = words_of_row(form, &entry.1);
    out[0] = head_of(form, entry);
    out[1..1 + row.len()].copy_from_slice(row);
    1 + row.len()
}

// The words of a row.
fn words_of_row(form: Form, row: &Row) -> &[u64]
    ensures { result.now ≡ row_words form row.now }
{
    match form {
        Form::Whole => row,
        Form::Stored => &row[..stored_length(row)],
    }
}

// The first word of an entry.
fn head_of(form: Form, entry: &(Oid, Row)) -> u64
    ensures { result ≡ first_word form entry.now }
{
    match form {
        Form::Whole => u64::from(entry.0),
        Form::Stored => u64::from(entry.0) + LENGTH_UNIT * stored_length(&entry.1) as u64,
    }
}

/// The entries at the front of the words.
pub fn read_entries(
    words: &[u64],
    form: Form,
    count: usize,
) -> Option<ArrayVec<(Oid, Row), BLOCK_ROWS>>
    ensures { (entries : List Entry) (rest : List ℕ) → All IsEntry entries → length entries ≡ count → count ≤ BLOCK_ROWS
        → words.now ≡ flat_map (entry_words form) entries ++ rest → result ≡ Some (record { items = entries }) }
{
    if count > BLOCK_ROWS {
        return None;
    }
    let mut entries = ArrayVec::new();
    let mut at = 0;
    for _entry in 0..count {
        let (entry, size) = read_entry(&words[at..], form)?;
        entries.push(entry);
        at += size;
    }
    Some(entries)
}

// The entry at the front of the words, and how many words it has.
fn read_entry(words: &[u64], form: Form) -> Option<((Oid, Row), usize)>
    ensures given { (entry : Entry) (rest : List ℕ) → IsEntry entry → words.now ≡ entry_words form entry ++ rest
        → result ≡ Some (entry, length (entry_words form entry)) }
    ensures room { IfSome result (λ found. found.1 ≤ length words.now) }
{
    stored_words_tell_the_row();
    let (head, behind) = words.split_first()?;
    let (oid, length) = head_parts(form, *head)?;
    let mut row = [0; ROW_WORDS];
    row[..length].copy_from_slice(behind.get(..length)?);
    Some(((oid, row), 1 + length))
}

// The object's number in the first word of an entry, and how many words of its row follow.
fn head_parts(form: Form, word: u64) -> Option<(Oid, usize)>
    ensures given { (entry : Entry) → IsEntry entry → word ≡ first_word form entry → result ≡ Some (entry.0, length (row_words form entry.1)) }
    ensures room { IfSome result (λ parts. parts.1 ≤ ROW_WORDS) }
{
    stored_words_tell_the_row();
    let (oid, length) = match form {
        Form::Whole => (word, ROW_WORDS as u64),
        Form::Stored => (word % LENGTH_UNIT, word / LENGTH_UNIT),
    };
    if oid >= u64::from(OID_LIMIT) || length > ROW_WORDS as u64 {
        return None;
    }
    Some((oid as Oid, length as usize))
}
