//! A replica.
ghost use Rattle.std.specs.Prelude.{◌≡◌, ◌↔◌, [], false, true, Err, IfErr, IfOk, IfSome, IsSome, OnErr, OnOk};
ghost use Rattle.erm_model.specs.Rows.{rows_of};
ghost use Rattle.erm_replica_rows.specs.Keeping.{IsFirst, Keeps, StopsFor, TakesPiece, shown, with_more};
ghost use Rattle.erm_replica_rows.specs.Seeing.{AreWhole};

use crate::reader::Reader;
use crate::snapshot::{Snapshot, drain};
use crate::{FeedStop, ReplicaRows};
use erm_model::{OID_LIMIT, ROW_WORDS, RowLaw, Stamp};
use erm_node::SoundRows;
use erm_replica::{ITEM_WORDS, Lack, forget_read, fronts_stay, parts_are_announced};
use std::alloc::{AllocError, Global};
use std::marker::Model;

/// The replica of a log that is shipped as a stream. It is fed bytes, however they are cut, and answers what the items among them leave: the
/// place behind the last one, the greatest safe stamp that one names, and the rows there. Contracts see what it knows (`Replicated`), and of
/// which bytes it keeps that (`Keeps`).
#[derive(Drop)]
pub struct Replica {
    // The bytes from some item on that isn't below the safe stamp, or from one before.
    bytes: Vec<u8>,
    // Room for the words of an item.
    words: Vec<u64>,
    end: Reader,
    snapshot: Snapshot,
    is_bad: bool,
}

impl Model for Replica {
    ghost use Rattle.std.specs.Prelude.{vec_len};
    ghost use Rattle.erm_replica_rows.specs.Keeping.{Fits, Replicated, kept_of};

    ghost Value = { Replicated };

    ghost view = { λ r. record { kept = kept_of r.end r.snapshot r.bytes.items; is_bad = r.is_bad } };

    ghost invariant = { λ r. Fits (vec_len r.bytes) (vec_len r.words) r.end r.snapshot (kept_of r.end r.snapshot r.bytes.items) };
}

impl Replica {
    /// A replica that was fed nothing. It takes some 7 MB.
    pub fn new(alloc: Global) -> Result<Replica, AllocError>
        ensures keeps { IfOk result (λ replica. Keeps [] replica) }
        ensures good { IfOk result (λ replica. replica.is_bad ≡ false) }
    {
        let words = vec![in alloc; 0; ITEM_WORDS]?;
        let end = first_reader(alloc)?;
        let reader = first_reader(alloc)?;
        Ok(Replica {
            bytes: Vec::new(alloc),
            words,
            end,
            snapshot: Snapshot {
                base: 0,
                safe: None,
                reader,
            },
            is_bad: false,
        })
    }

    /// Takes the next bytes of the stream, however they are cut.
    ///
    /// # Errors
    ///
    /// `Bad` where an item that begins at a place is none, whatever follows: a number of words that no slot has, a header of no kind or size,
    /// words that don't read, or rows after it that aren't sound. All is as before that item then, and each later call answers the same.
    /// `Memory` where memory ran out: nothing of the piece was taken.
    pub fn feed(&mut self, piece: &[u8]) -> Result<(), FeedStop>
        ensures takes { OnOk result (TakesPiece self.old piece.now self.new) }
        ensures good { OnOk result (self.new.is_bad ≡ false) }
        ensures stops { IfErr result (λ stop. StopsFor self.old piece.now stop self.new) }
        ensures again { self.old.is_bad ≡ true → (result ≡ Err (FeedStop.Bad self.old.kept.stream.place)) × (self.new ≡ self.old) }
    {
        SoundRows::respects_rows();
        fronts_stay();
        parts_are_announced();
        if self.is_bad {
            return Err(FeedStop::Bad {
                place: self.end.place,
            });
        }
        self.add(piece)?;
        match drain(
            &mut self.end,
            &mut self.snapshot,
            &self.bytes,
            &mut self.words,
        ) {
            Lack::Short => Ok(()),
            Lack::Unreadable => {
                self.is_bad = true;
                Err(FeedStop::Bad {
                    place: self.end.place,
                })
            }
        }
    }

    // Adds bytes behind those that are kept.
    fn add(&mut self, piece: &[u8]) -> Result<(), AllocError>
        ensures ok { OnOk result ((self.new.kept ≡ with_more self.old.kept piece.now) × (self.new.is_bad ≡ self.old.is_bad)) }
        ensures err { OnErr result (self.new ≡ self.old) }
    {
        fronts_stay();
        parts_are_announced();
        let index = forget_read(&mut self.bytes, self.snapshot.reader.index);
        self.end.index -= self.snapshot.reader.index - index;
        self.snapshot.reader.index = index;
        self.bytes.extend_from_slice(piece)?;
        Ok(())
    }

    /// The place of the log behind the last item, or 0.
    pub fn stamp(&self) -> Stamp
        ensures { result ≡ (shown self.now).stamp }
    {
        match self.end.log {
            Some(log) => log.at,
            None => 0,
        }
    }

    /// The greatest safe stamp that an item names, which isn't below the checkpoint in front.
    pub fn safe(&self) -> Option<Stamp>
        ensures { result ≡ (shown self.now).safe }
    {
        self.snapshot.safe
    }

    /// How many bytes are behind the last item. What is no item isn't counted, nor what is behind it.
    pub fn rest(&self) -> usize
        ensures { result ≡ (shown self.now).rest }
    {
        if self.is_bad {
            return 0;
        }
        self.bytes.len() - self.end.index
    }

    /// The rows at the safe stamp, where there is one.
    pub fn rows(&self) -> Option<ReplicaRows<'_>>
        ensures some { IsSome result ↔ IsSome (shown self.now).safe }
        ensures rows { IfSome result (λ rows. rows_of rows.rows.now ≡ (shown self.now).rows) }
        ensures whole { IfSome result (λ rows. AreWhole rows.rows.now) }
    {
        SoundRows::respects_rows();
        match self.snapshot.safe {
            Some(_) => Some(ReplicaRows {
                rows: &self.snapshot.reader.rows,
            }),
            None => None,
        }
    }
}

// A reader at the begin of a stream.
fn first_reader(alloc: Global) -> Result<Reader, AllocError>
    ensures { IfOk result (λ reader. IsFirst reader) }
{
    let rows = vec![in alloc; [0; ROW_WORDS]; OID_LIMIT as usize]?;
    Ok(Reader {
        index: 0,
        place: 0,
        log: None,
        rows,
    })
}
