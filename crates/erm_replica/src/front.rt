//! What stands at the front of bytes.
ghost use Rattle.std.specs.Prelude.{◌≡◌, ◌≢◌, ◌+◌, ◌*◌, ◌<◌, ◌≤◌, IfOk, IfSome, IsSome, true, false, Err, None, Some, length};
ghost use Rattle.erm_model.specs.Rows.{rows_of};
ghost use Rattle.erm_model.specs.RowTransaction.{SameRows};
ghost use Rattle.erm_ckpt.specs.Checkpoint.{Checkpoint, StandsIn, rows_of_checkpoint, slot_words};
ghost use Rattle.erm_replica.specs.Found.{Finds};
ghost use Rattle.erm_replica.specs.Stream.{IsBase, IsShort, IsUnreadable, StandsFirst, first_word, part_words, start_checkpoint};
ghost use Rattle.erm_replica.specs.Stream.Part.{base, block};

use crate::rows::AllRows;
use crate::size::{base_size, block_size};
use crate::{Item, LogPlace};
use erm_block::{Block, read_block, spelling_size};
use erm_bytes::{WORD_BYTES, digest_word, read_words};
use erm_ckpt::{LOG_START, SLOT_WORDS, Slot, clear_rows, one_slot, read_slot, slots_are_bounded};
use erm_model::{OID_LIMIT, Row};

/// Why no item is found.
#[derive(Clone, Copy)]
pub enum Lack {
    /// Not all of it is there.
    Short,
    /// What stands there is none, whatever follows.
    Unreadable,
}

/// An item at the front of bytes.
#[derive(Drop)]
pub struct FoundItem {
    /// The item.
    pub item: Item,
    /// How many words it has.
    pub size: usize,
    /// Where the log goes on behind it.
    pub log: LogPlace,
}

/// Finds the item at the front of the bytes, where the log goes on so: nowhere before the checkpoint. It leaves the rows of a checkpoint in
/// `rows`; `words` is room for the words of an item. It takes no memory.
///
/// # Errors
///
/// `Short` where the item isn't all there, and `Unreadable` where what stands there is none, whatever follows. The rows are any then, unless
/// a block was looked for.
pub fn find(
    bytes: &[u8],
    log: Option<LogPlace>,
    words: &mut [u64],
    rows: &mut [Row],
) -> Result<FoundItem, Lack>
    requires words { length words.old ≡ SLOT_WORDS + 1 }
    requires rows { length rows.old ≡ OID_LIMIT }
    ensures found { IfOk result (λ found. Finds log bytes.now rows.new found) }
    ensures kept { log ≢ None → rows.new ≡ rows.old }
    ensures short { result ≡ Err Lack.Short → IsShort log bytes.now }
    ensures unreadable { result ≡ Err Lack.Unreadable → IsUnreadable log bytes.now }
{
    spelling_size();
    slots_are_bounded();
    match log {
        None => {
            let (slot, size) = find_base(bytes, words, rows)?;
            Ok(FoundItem {
                item: Item::Base(slot),
                size,
                log: LogPlace {
                    at: slot.stamp,
                    run: slot.run,
                },
            })
        }
        Some(log) => {
            let block = find_block(bytes, log, words)?;
            Ok(FoundItem {
                size: usize::from(block.size),
                log: LogPlace {
                    at: block.stamp + u64::from(block.size),
                    run: block.run,
                },
                item: Item::Block(block),
            })
        }
    }
}

// The checkpoint at the front of the bytes, and how many words it has, its own number among them. It leaves its rows in `rows`.
fn find_base(bytes: &[u8], words: &mut [u64], rows: &mut [Row]) -> Result<(Slot, usize), Lack>
    requires words { length words.old ≡ SLOT_WORDS + 1 }
    requires rows { length rows.old ≡ OID_LIMIT }
    ensures found { IfOk result (λ found. (checkpoint : Checkpoint) × StandsFirst None bytes.now (base checkpoint)
        × (found.0 ≡ checkpoint.slot) × (found.1 ≡ length (part_words (base checkpoint))) × SameRows (rows_of rows.new) (rows_of_checkpoint checkpoint)) }
    ensures short { result ≡ Err Lack.Short → IsShort None bytes.now }
    ensures unreadable { result ≡ Err Lack.Unreadable → IsUnreadable None bytes.now }
{
    spelling_size();
    slots_are_bounded();
    let Some(first) = read_first(bytes) else {
        return Err(Lack::Short);
    };
    let Some(size) = base_size(first) else {
        return Err(Lack::Unreadable);
    };
    if bytes.len() < WORD_BYTES * size {
        return Err(Lack::Short);
    }
    let words = &mut words[..size];
    read_words(&bytes[..WORD_BYTES * size], words);
    match base_of(&words[1..], rows) {
        Some(slot) => Ok((slot, size)),
        None => Err(Lack::Unreadable),
    }
}

// The block at the front of the bytes, where the log goes on so.
fn find_block(bytes: &[u8], log: LogPlace, words: &mut [u64]) -> Result<Block, Lack>
    requires words { length words.old ≡ SLOT_WORDS + 1 }
    ensures found { IfOk result (λ found. StandsFirst (Some log) bytes.now (block found)) }
    ensures short { result ≡ Err Lack.Short → IsShort (Some log) bytes.now }
    ensures unreadable { result ≡ Err Lack.Unreadable → IsUnreadable (Some log) bytes.now }
{
    spelling_size();
    slots_are_bounded();
    let Some(first) = read_first(bytes) else {
        return Err(Lack::Short);
    };
    let Some(size) = block_size(first) else {
        return Err(Lack::Unreadable);
    };
    if bytes.len() < WORD_BYTES * size {
        return Err(Lack::Short);
    }
    let words = &mut words[..size];
    read_words(&bytes[..WORD_BYTES * size], words);
    match read_block(words, log.at, log.run) {
        Some(block) => Ok(block),
        None => Err(Lack::Unreadable),
    }
}

// The first word of the bytes, if one is there.
fn read_first(bytes: &[u8]) -> Option<u64>
    ensures none { result ≡ None → length bytes.now < WORD_BYTES }
    ensures some { IfSome result (λ word. (WORD_BYTES ≤ length bytes.now) × (word ≡ first_word bytes.now)) }
{
    if bytes.len() < WORD_BYTES {
        return None;
    }
    let mut word = [0];
    read_words(&bytes[..WORD_BYTES], &mut word);
    Some(word[0])
}

// What the slot of these words says, all of them, where a stream may begin with it. It leaves its rows in `rows`.
fn base_of(words: &[u64], rows: &mut [Row]) -> Option<Slot>
    requires size { 6 ≤ length words.now }
    requires rows { length rows.old ≡ OID_LIMIT }
    ensures found { IfSome result (λ slot. (checkpoint : Checkpoint) × IsBase checkpoint × (words.now ≡ slot_words checkpoint) × (slot ≡ checkpoint.slot)
        × SameRows (rows_of rows.new) (rows_of_checkpoint checkpoint)) }
    ensures given { (checkpoint : Checkpoint) → IsBase checkpoint → words.now ≡ slot_words checkpoint → IsSome result }
{
    one_slot();
    if is_start(words) {
        clear_rows(rows);
        return Some(Slot {
            stamp: LOG_START,
            run: 0,
            first: 0,
        });
    }
    if words[0] != 2 || words[3] != 0 {
        return None;
    }
    // A slot that ends before the last word is found without it too.
    if has_slot(&words[..words.len() - 1], rows) {
        return None;
    }
    read_slot(words, rows, &AllRows)
}

// Whether the words begin with a slot.
fn has_slot(words: &[u64], rows: &mut [Row]) -> bool
    requires { length rows.old ≡ OID_LIMIT }
    ensures yes { result ≡ true → (checkpoint : Checkpoint) × StandsIn words.now checkpoint }
    ensures no { result ≡ false → (checkpoint : Checkpoint) → StandsIn words.now checkpoint → ⊥ }
{
    match read_slot(words, rows, &AllRows) {
        Some(_) => true,
        None => false,
    }
}

// Whether these words are the slot of the start of a log.
fn is_start(words: &[u64]) -> bool
    ensures yes { result ≡ true → words.now ≡ slot_words start_checkpoint }
    ensures no { result ≡ false → words.now ≡ slot_words start_checkpoint → ⊥ }
{
    let body = [2, LOG_START, 0, 0, 0];
    words == [2, LOG_START, 0, 0, 0, digest_word(&body)].as_slice()
}
