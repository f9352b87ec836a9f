//! The desk.
ghost use Rattle.std.specs.Prelude.{◌≡◌, ◌<◌, ◌*◌, ◌^◌, false, IfSome, []};
ghost use Rattle.erm_checkpoint.specs.Taken.{HoldsLog};
ghost use Rattle.erm_ckpt.specs.declared.slot.TheConstants.{LOG_START};
ghost use Rattle.erm_desk.specs.All.{TurnsAll};
ghost use Rattle.erm_desk.specs.Desk.{IsDesk, IsHeld, Sees, TurnsTo};
ghost use Rattle.erm_desk.specs.Known.{IsFlushedTo, opened_at};
ghost use Rattle.erm_desk.specs.Turns.{FlushSteps};
ghost use Rattle.erm_pin.specs.Pins.{IsUnpinned};
ghost use Rattle.erm_ring.specs.Turns.{MayGather};
ghost use Rattle.erm_rule.specs.Books.{book};
ghost use Rattle.erm_rule.specs.Steps.{Fits};
ghost use Rattle.erm_rule.specs.Views.{MayJoin, view};

use crate::laws::turns_keep_desks;
use crate::naming::Naming;
use crate::seat::FlushSeat;
use erm_flush::{FlushStop, Flusher};
use erm_model::{RowLaw, Stamp};
use erm_outside::Disk;
use erm_rule::{Pass, Table};
use std::marker::{Model, PhantomData};

/// What turns one after another did: so many flushed, and the next one stopped.
#[derive(Clone, Copy, Debug, PartialEq, Eq)]
pub struct Stopped {
    /// How many flushed.
    pub turns: u64,
    /// Why the next one didn't.
    pub stop: FlushStop,
}

/// A disk with the log of a table, and the pass with the flush seat, which writes what is decided of the log to the disk. A contract sees
/// the book of the pass, what the disk tells and its count of faults, and whether it failed at a turn.
#[derive(Drop)]
pub struct Desk<L: RowLaw, D: Disk + Drop, B: Naming> {
    disk: D,
    pass: Pass,
    flusher: Flusher,
    of: PhantomData<(L, B)>,
}

impl<L: RowLaw, D: Disk + Drop, B: Naming> Model for Desk<L, D, B> {
    ghost use Rattle.std.specs.Prelude.{◌≡◌, ◌*◌};
    ghost use Rattle.erm_desk.specs.Desk.{IsDesk, Sees};
    ghost use Rattle.erm_pin.specs.Pins.{IsUnpinned};
    ghost use Rattle.erm_rule.specs.Books.{book};
    ghost use Rattle.erm_rule.specs.Steps.{Fits};

    ghost Value = { Sees };

    ghost view = { λ d. record { book = book d.pass; told = D.told d.disk; faults = D.faults d.disk; failed = d.flusher } };

    ghost invariant = { λ d. Fits B.table d.pass × IsUnpinned (book d.pass).view
        × IsDesk L.law B.start B.began B.faults (record { book = book d.pass; told = D.told d.disk; faults = D.faults d.disk; failed = d.flusher }) };
}

impl<L: RowLaw, D: Disk + Drop, B: Naming> Desk<L, D, B> {
    /// A desk with a flusher that was just made, a disk that holds the log where the opening begins it, and a pass that has the flush seat, with
    /// which nothing was flushed yet. No later call takes memory.
    pub fn with(flusher: Flusher, disk: D, pass: Pass) -> Desk<L, D, B>
        requires new { flusher ≡ false }
        requires fits { Fits B.table pass }
        requires may { MayGather (view pass) }
        requires joins { MayJoin (view pass) }
        requires start { (book pass).start ≡ B.start }
        requires flushed { IsFlushedTo (book pass) B.start.tail }
        requires unpinned { IsUnpinned (view pass) }
        requires behind { LOG_START < B.start.tail }
        requires low { B.start.tail < 2 ^ 61 }
        requires meets { L.law.meets (opened_at B.start).rows }
        requires began { D.told disk ≡ B.began }
        requires faults { D.faults disk ≡ B.faults }
        requires holds { IfSome (D.told disk) (IsHeld L.law B.start []) }
        ensures new { result ≡ record { book = book pass; told = B.began; faults = B.faults; failed = false } }
    {
        erm_crash::kept_logs_begin::<L>();
        Desk {
            disk,
            pass,
            flusher,
            of: PhantomData,
        }
    }

    /// The desk of these parts, where what is so of a desk is so of them.
    pub fn of_parts(disk: D, pass: Pass, flusher: Flusher) -> Desk<L, D, B>
        requires fits { Fits B.table pass }
        requires unpinned { IsUnpinned (view pass) }
        requires desk { IsDesk L.law B.start B.began B.faults (record { book = book pass; told = D.told disk; faults = D.faults disk; failed = flusher }) }
        ensures same { result ≡ record { book = book pass; told = D.told disk; faults = D.faults disk; failed = flusher } }
    {
        Desk {
            disk,
            pass,
            flusher,
            of: PhantomData,
        }
    }

    /// A turn: all that is decided of the log in order from the place flushed on is written to the disk, up to the first range that isn't or the
    /// log's end, and once it lasts there it is flushed. No memory is taken, and nobody is waited for but the disk.
    pub fn turn(&mut self, t: &Table<L>) -> Result<Stamp, FlushStop>
        requires table { t.now.words.shared.table_id ≡ B.table }
        ensures turns { TurnsTo L.law B.start result self.old self.new }
        ensures steps { FlushSteps L.law self.old.book self.new.book }
    {
        turns_keep_desks::<L>();
        let mut seat = FlushSeat {
            table: t,
            pass: &mut self.pass,
            pin: 0,
        };
        self.flusher.turn_over(&mut self.disk, &mut seat)
    }

    /// Turns one after another, until one flushes nothing: then nothing more was decided in order, or the disk has failed. No memory is
    /// taken, and nobody is waited for but the disk. Each turn flushes further, so they end.
    pub fn turn_all(&mut self, t: &Table<L>) -> Stopped
        requires table { t.now.words.shared.table_id ≡ B.table }
        ensures turns { TurnsAll L.law B.start result.turns result.stop self.old self.new }
    {
        let mut turns = 0;
        let mut flushed = 0;
        loop {
            match self.turn(t) {
                Ok(end) => {
                    turns += 1;
                    flushed = end;
                }
                Err(stop) => return Stopped { turns, stop },
            }
        }
    }

    /// The disk, the pass, and the flusher, which knows whether the disk failed: what was so of the desk is so of them.
    pub fn into_parts(self) -> (D, Pass, Flusher)
        ensures fits { Fits B.table result.1 }
        ensures unpinned { IsUnpinned (view result.1) }
        ensures desk { IsDesk L.law B.start B.began B.faults (record { book = book result.1; told = D.told result.0; faults = D.faults result.0; failed = result.2 }) }
        ensures same { record { book = book result.1; told = D.told result.0; faults = D.faults result.0; failed = result.2 } ≡ self }
    {
        (self.disk, self.pass, self.flusher)
    }
}
