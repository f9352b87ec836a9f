//! A reader of a stream's items, with the rows behind those that it took.
ghost use Rattle.std.specs.Prelude.{◌≡◌, ◌<◌, ◌↔◌, true, false, drop, length, Err, IfOk, IsTrue, OnErr, OnOk};
ghost use Rattle.std.specs.Bool.{OnFalse, OnTrue};
ghost use Rattle.erm_model.specs.Rows.{rows_of};
ghost use Rattle.erm_replica.specs.Stream.{IsShort};
ghost use Rattle.erm_replica_rows.specs.Moving.{IsBefore, IsFrom, MovesTo};
ghost use Rattle.erm_replica_rows.specs.Reading.{Advances, CanRead, HasLawful, IsStuck, MaySet, StaysPut, rows_with};

use crate::any_test::AnyTest;
use erm_block::spelling_size;
use erm_bytes::WORD_BYTES;
use erm_ckpt::slots_are_bounded;
use erm_model::{OID_LIMIT, Row, Stamp};
use erm_recover::{ReplaceTest, set_block};
use erm_replica::{ITEM_WORDS, Item, Lack, LogPlace, find, fronts_are_one, parts_are_announced};

/// A reader of the bytes of a stream.
#[derive(Drop)]
pub(crate) struct Reader {
    /// How many of the bytes are before the next item.
    pub index: usize,
    /// The place of the next item, in words from the stream's begin.
    pub place: u64,
    /// Where the log goes on there: nowhere before the checkpoint.
    pub log: Option<LogPlace>,
    /// The rows behind the items that it took; any before the checkpoint.
    pub rows: Vec<Row>,
}

/// Takes the next item, where it is there and the rows after it meet the test's law: then the reader has these rows. Else it stays where it is.
pub(crate) fn advance<T: ReplaceTest>(
    reader: &mut Reader,
    test: &T,
    bytes: &[u8],
    words: &mut [u64],
) -> Result<Item, Lack>
    requires words { length words.old ≡ ITEM_WORDS }
    requires ready { CanRead reader.old (length bytes.now) }
    requires lawful { HasLawful T.law.meets reader.old }
    ensures takes { IfOk result (λ item. Advances item bytes.now reader.old reader.new) }
    ensures short { result ≡ Err Lack.Short → IsShort reader.new.log (drop reader.new.index bytes.now) }
    ensures stuck { result ≡ Err Lack.Unreadable → IsStuck T.law.meets bytes.now reader.new }
    ensures further { OnOk result (reader.old.index < reader.new.index) }
    ensures stays { OnErr result (StaysPut reader.old reader.new) }
    ensures ready { CanRead reader.new (length bytes.now) }
    ensures lawful { HasLawful T.law.meets reader.new }
{
    T::respects_rows();
    spelling_size();
    slots_are_bounded();
    let found = match find(&bytes[reader.index..], reader.log, words, &mut reader.rows) {
        Ok(found) => found,
        Err(lack) => return Err(lack),
    };
    if !set_item(test, &mut reader.rows, &found.item) {
        return Err(Lack::Unreadable);
    }
    reader.index += WORD_BYTES * found.size;
    reader.place += found.size as u64;
    reader.log = Some(found.log);
    Ok(found.item)
}

// Sets the rows of an item, where the rows after it meet a law; those of a checkpoint are there already. It answers whether they do.
fn set_item<T: ReplaceTest>(test: &T, rows: &mut [Row], item: &Item) -> bool
    requires count { length rows.old ≡ OID_LIMIT }
    requires may { MaySet T.law.meets item.now (rows_of rows.old) }
    ensures test { IsTrue result ↔ T.law.meets (rows_with item.now (rows_of rows.old)) }
    ensures set { OnTrue result (rows_of rows.new ≡ rows_with item.now (rows_of rows.old)) }
    ensures kept { OnFalse result (rows.new ≡ rows.old) }
{
    match item {
        Item::Base(_) => test.test(rows),
        Item::Block(block) => set_block(test, rows, block),
    }
}

/// Takes the items below a stamp, where others lead there or behind it.
pub(crate) fn take_below(reader: &mut Reader, stamp: Stamp, bytes: &[u8], words: &mut [u64])
    requires words { length words.old ≡ ITEM_WORDS }
    requires ready { CanRead reader.old (length bytes.now) }
    ensures moves { MovesTo stamp bytes.now reader.old reader.new }
    ensures ready { CanRead reader.new (length bytes.now) }
{
    fronts_are_one();
    parts_are_announced();
    while is_before(&reader.log, stamp) {
        match advance(reader, &AnyTest, bytes, words) {
            Ok(_) => {}
            Err(_lack) => return,
        }
    }
}

// Whether the log goes on below a stamp, or isn't there yet.
fn is_before(log: &Option<LogPlace>, stamp: Stamp) -> bool
    ensures before { result ≡ true → IsBefore stamp log.now }
    ensures from { result ≡ false → IsFrom stamp log.now }
{
    match log {
        None => true,
        Some(log) => log.at < stamp,
    }
}
