//! A stream's reader.
ghost use Rattle.std.specs.Prelude.{◌≡◌, ◌<◌, ◌≤◌, IfOk, IfErr, OnOk, OnErr, drop, vec_len};
ghost use Rattle.erm_replica.specs.Stream.{IsShort, IsUnreadable, StopsFor, TakesNext, fed, start};

use crate::front::{Lack, find};
use crate::{Item, LogPlace, StreamStop};
use erm_block::spelling_size;
use erm_bytes::WORD_BYTES;
use erm_ckpt::{SLOT_WORDS, slots_are_bounded};
use erm_model::{OID_LIMIT, ROW_WORDS, Row};
use std::alloc::{AllocError, Global};
use std::marker::Model;

/// The most words of an item: those of the greatest slot, and their number in front.
pub const ITEM_WORDS: usize = SLOT_WORDS + 1;

/// Reads a stream as it comes: it is fed bytes, and answers what they spell, item by item. Contracts see what it knows (`Streamed`).
#[derive(Drop)]
pub struct Stream {
    alloc: Global,
    // The bytes from some item on; those before `read` are of items that were answered.
    bytes: Vec<u8>,
    read: usize,
    // Room for the words of an item and for the rows of a checkpoint, from the first bytes on.
    words: Vec<u64>,
    rows: Vec<Row>,
    place: u64,
    log: Option<LogPlace>,
}

impl Model for Stream {
    ghost use Rattle.erm_replica.specs.Stream.{Streamed};
    ghost use Rattle.erm_replica.specs.Ready.{IsReady};
    ghost use Rattle.std.specs.Prelude.{drop, vec_len};

    ghost Value = { Streamed };

    ghost view = { λ s. record { place = s.place; log = s.log; rest = drop s.read s.bytes.items } };

    ghost invariant = { λ s. IsReady s.read (vec_len s.bytes) (vec_len s.words) (vec_len s.rows) s.place s.log };
}

impl Stream {
    /// The reader of a stream, at its begin. It takes no memory.
    pub fn new(alloc: Global) -> Stream
        ensures { result ≡ start }
    {
        Stream {
            alloc,
            bytes: Vec::new(alloc),
            read: 0,
            words: Vec::new(alloc),
            rows: Vec::new(alloc),
            place: 0,
            log: None,
        }
    }

    /// Takes the next bytes of the stream, however they are cut. After an `Err` none of them is taken.
    pub fn feed(&mut self, piece: &[u8]) -> Result<(), AllocError>
        ensures ok { OnOk result (self.new ≡ fed self.old piece.now) }
        ensures err { OnErr result (self.new ≡ self.old) }
    {
        make_room(self.alloc, &mut self.words, &mut self.rows)?;
        self.read = forget_read(&mut self.bytes, self.read);
        self.bytes.extend_from_slice(piece)?;
        Ok(())
    }

    /// Answers the next item. It takes no memory.
    ///
    /// # Errors
    ///
    /// `NotYet` where it isn't all there; once more bytes are fed it may be. `Bad` where what stands there is no item, whatever follows:
    /// a number of words that no slot has, a header of no kind or size, or words that don't read. Nothing is taken then.
    pub fn next(&mut self) -> Result<Item, StreamStop>
        ensures item { IfOk result (λ item. TakesNext self.old item self.new) }
        ensures stop { IfErr result (λ stop. StopsFor self.old stop) }
        ensures kept { OnErr result (self.new ≡ self.old) }
    {
        spelling_size();
        slots_are_bounded();
        if self.words.is_empty() {
            return Err(StreamStop::NotYet { bytes: 0 });
        }
        match find(
            &self.bytes[self.read..],
            self.log,
            &mut self.words,
            &mut self.rows,
        ) {
            Ok(found) => {
                self.read += WORD_BYTES * found.size;
                self.place += found.size as u64;
                self.log = Some(found.log);
                Ok(found.item)
            }
            Err(lack) => Err(self.stop(lack)),
        }
    }

    // What is answered where no item is found.
    fn stop(&self, lack: Lack) -> StreamStop
        ensures short { lack ≡ Lack.Short → IsShort self.now.log self.now.rest → StopsFor self.now result }
        ensures unreadable { lack ≡ Lack.Unreadable → IsUnreadable self.now.log self.now.rest → StopsFor self.now result }
    {
        match lack {
            Lack::Short => StreamStop::NotYet {
                bytes: self.bytes.len() - self.read,
            },
            Lack::Unreadable => StreamStop::Bad { place: self.place },
        }
    }
}

// Makes room for the words of an item and for rows, where there is none yet.
fn make_room(alloc: Global, words: &mut Vec<u64>, rows: &mut Vec<Row>) -> Result<(), AllocError>
    requires words { 0 < vec_len words.old → vec_len words.old ≡ ITEM_WORDS }
    requires rows { 0 < vec_len words.old → vec_len rows.old ≡ OID_LIMIT }
    ensures words { OnOk result (vec_len words.new ≡ ITEM_WORDS) }
    ensures rows { OnOk result (vec_len rows.new ≡ OID_LIMIT) }
    ensures words_kept { OnErr result (words.new ≡ words.old) }
    ensures rows_kept { OnErr result (rows.new ≡ rows.old) }
{
    if !words.is_empty() {
        return Ok(());
    }
    let more_words = vec![in alloc; 0; ITEM_WORDS]?;
    let more_rows = vec![in alloc; [0; ROW_WORDS]; OID_LIMIT as usize]?;
    *words = more_words;
    *rows = more_rows;
    Ok(())
}

/// Forgets bytes in front, where they are more than half of all, and answers how many of those that are left are before the others.
pub fn forget_read(bytes: &mut Vec<u8>, read: usize) -> usize
    requires { read ≤ vec_len bytes.old }
    ensures rest { drop result bytes.new.items ≡ drop read bytes.old.items }
    ensures within { result ≤ vec_len bytes.new }
    ensures fewer { vec_len bytes.new ≤ vec_len bytes.old }
    ensures nearer { result ≤ read }
{
    let left = bytes.len() - read;
    if read <= left {
        return read;
    }
    bytes.copy_within(read.., 0);
    bytes.truncate(left);
    0
}
