//! What the worker of a session over the word table does between its calls.
ghost use Rattle.std.specs.Prelude.{◌≡◌, ◌<◌, ◌⊎◌, true};
ghost use Rattle.erm_run_beside.specs.Shared.{TellsFailure};

use crate::shared::SharedDesk;
use crossbeam_utils::Backoff;
use erm_desk::Naming;
use erm_flush::FlushStop;
use erm_model::{RowLaw, Seat, Stamp};
use erm_outside::{Disk, Gate, Place};
use erm_rule::Table;
use erm_worker::{Turns, Why};
use std::sync::atomic::{AtomicU64, Ordering};
use std::sync::ledger::{Ledger, Share};
use std::sync::{Mutex, Wait};

// What a worker leaves beside the lock: nothing; that it has met that the disk has failed, for which the others are to look themselves; or that
// memory ran out for it.
const NONE: u64 = 0;

const FAILED: u64 = 1;

const STARVED: u64 = 2;

// Behind how many transactions of its own a worker tells the others of them.
const TOLD_EACH: u64 = 64;

// Behind how many transactions of all workers one of them takes a turn of the desk, though nothing is in its way: so that the others have room in the
// ring, whose words are those of some fifteen hundred small ones, while it waits for the disk.
const FLUSHED_EACH: u64 = 1024;

/// A worker that waits by turns of the desk, and halts once it has met itself that the disk has failed: its share counts that. It halts too where
/// memory ran out for another one.
#[derive(Drop)]
pub struct DeskTurns<'a, L: RowLaw, D: Disk + Drop, B: Naming + Ledger, G: Gate, R: Wait> {
    rt: &'a R,
    table: &'a Table<L>,
    desk: &'a Mutex<SharedDesk<L, D, B>>,
    gate: &'a G,
    // Why workers are to halt.
    halt: &'a AtomicU64,
    // How many transactions they have begun, as far as they have told, where there are several.
    begun: Option<&'a AtomicU64>,
    // How many of its own this worker hasn't told of, but for as many as it tells of at a time.
    untold: u8,
    // How often a turn of this worker told that the disk has failed.
    met: Share<B>,
    // Whether one did.
    halted: bool,
    // Whether memory ran out for another worker.
    starved: bool,
    seat: Seat,
    backoff: Backoff,
    ghost named: { table.now.words.shared.table_id ≡ B.table },
    ghost part: { 0 < met.parts },
    ghost counted: { halted ≡ true → 0 < met.amount },
}

impl<'a, L: RowLaw, D: Disk + Drop, B: Naming + Ledger, G: Gate, R: Wait> DeskTurns<
    'a,
    L,
    D,
    B,
    G,
    R,
> {
    /// The turns of the worker of this seat.
    pub fn new(
        rt: &'a R,
        table: &'a Table<L>,
        desk: &'a Mutex<SharedDesk<L, D, B>>,
        gate: &'a G,
        halt: &'a AtomicU64,
        begun: Option<&'a AtomicU64>,
        met: Share<B>,
        seat: Seat,
    ) -> Self
        requires table { table.now.words.shared.table_id ≡ B.table }
        requires part { 0 < met.parts }
    {
        DeskTurns {
            rt,
            table,
            desk,
            gate,
            halt,
            begun,
            untold: 0,
            met,
            halted: false,
            starved: false,
            seat,
            backoff: Backoff::new(),
        }
    }

    /// How often a turn of the worker told that the disk has failed.
    pub fn into_met(self) -> Share<B>
        ensures { result.amount ≡ self.entry.met.amount }
    {
        self.met
    }

    // A turn of the desk.
    fn flush(&mut self) {
        let answer = self.desk.lock(self.rt).turn(self.table, &mut self.met);
        self.hear(answer);
    }

    // A turn of the desk, where no other worker has it.
    fn flush_if_free(&mut self) {
        let answer = match self.desk.try_lock() {
            Some(mut desk) => desk.turn(self.table, &mut self.met),
            None => return,
        };
        self.hear(answer);
    }

    // What a turn answered. Where it flushed nothing the worker rests; where the disk has failed it halts, and the others are to look.
    fn hear(&mut self, answer: Result<Stamp, FlushStop>)
        requires counted { TellsFailure answer → 0 < self.old.met.amount }
        ensures met { self.new.met ≡ self.old.met }
    {
        match answer {
            Ok(_) => self.backoff.reset(),
            Err(FlushStop::Empty { .. } | FlushStop::Unfilled { .. }) => self.backoff.snooze(),
            Err(FlushStop::DiskFault | FlushStop::Failed) => {
                self.halted = true;
                self.halt.store(FAILED, Ordering::SeqCst);
            }
        }
    }

    // Counts a transaction that begins, and flushes behind each so many of all workers.
    fn count(&mut self) {
        let Some(begun) = self.begun else {
            return;
        };
        self.untold = self.untold.wrapping_add(1);
        if u64::from(self.untold) % TOLD_EACH != 0 {
            return;
        }
        let before = begun.fetch_add(TOLD_EACH, Ordering::SeqCst);
        if before % FLUSHED_EACH == FLUSHED_EACH - TOLD_EACH {
            self.flush_if_free();
        }
    }
}

impl<'a, L: RowLaw, D: Disk + Drop, B: Naming + Ledger, G: Gate, R: Wait> Turns
    for DeskTurns<'a, L, D, B, G, R> {
    ghost told = { λ turns. (0 < turns.met.amount) ⊎ (turns.starved ≡ true) };

    ghost starved = { λ turns. turns.starved };

    fn pass(&mut self, place: Place) {
        self.gate.pass(self.rt, self.seat, place);
        if let Place::Begin = place {
            self.count();
        }
    }

    fn wait(&mut self, why: Why) -> bool {
        match why {
            Why::Session => self.backoff.snooze(),
            Why::Ring | Why::Disk => self.flush(),
        }
        self.goes_on()
    }

    fn goes_on(&mut self) -> bool {
        match self.halt.load(Ordering::SeqCst) {
            NONE => {}
            STARVED => self.starved = true,
            _ => {
                if !self.halted {
                    self.flush();
                }
            }
        }
        !self.halted && !self.starved
    }

    fn is_starved(&self) -> bool {
        self.starved
    }

    fn tell_starved(&mut self) {
        self.halt.store(STARVED, Ordering::SeqCst);
    }
}
