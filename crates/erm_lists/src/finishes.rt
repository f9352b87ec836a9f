//! The second half of a claim: the chain of its object is cut, it gets a cell of its own, and the row is copied into that.
ghost use Rattle.std.specs.Prelude.{◌≡◌, false, true, slice_index, None};
ghost use Rattle.erm_machine.specs.Seat.{is_active};
ghost use Rattle.erm_machine.specs.Words.{is_session};
ghost use Rattle.erm_machine.specs.declared.event.Kind.TheVariants as kind;
ghost use Rattle.erm_machine.specs.declared.task.Task.TheVariants as task;
ghost use Rattle.erm_machine.specs.declared.version.CellWord.TheVariants as word;
ghost use Rattle.erm_sound.specs.Kept.{SoundUnder};
ghost use Rattle.erm_kept.specs.Attempts.{attempt_of};
ghost use Rattle.erm_seat.specs.Parts.{part_of};
ghost use Rattle.erm_core.specs.Cores.{core_of};
ghost use Rattle.erm_core_calls.specs.Going as going_specs;
ghost use Rattle.erm_core_steps.specs.Finishes as finishes_specs;
ghost use Rattle.erm_core_steps.specs.Finishes.{is_finishing, IsDropped};
ghost use Rattle.erm_lists.specs.Rooms.{MayFinish};
ghost use Rattle.erm_core_steps.specs.Reads.{GoesOn, IsAtWork};
ghost use Rattle.erm_core_steps.specs.Steps.{IsUnseen};

use crate::Lists;
use crate::installs::own_number;
use erm_kept::AttemptState;
use erm_machine::{CellWord, Counter, Kind, TailUse, Task, VersionAt};
use erm_model::{RowLaw, Seat};
use erm_seat::SeatState;

// A word of a row, or 0 past its end.
fn row_word(row: &[u64], k: u8) -> u64
    ensures { result ≡ slice_index row.now k }
{
    match row.get(k as usize) {
        Some(value) => *value,
        None => 0,
    }
}

// The load of the reader stamp of the version that the newest claim overwrites.
fn load_reader_stamp(t: &AttemptState) -> Kind
    ensures { result ≡ kind.LoadStamp (going_specs.newest_of (attempt_of t.now)) word.ReaderStamp }
{
    Kind::LoadStamp {
        version: t.newest_claim().version,
        word: CellWord::ReaderStamp,
    }
}

// A spare cell is taken with the load of the reader stamp; where there is none the counter of cells is loaded.
fn next_draw(x: &SeatState) -> Kind
    ensures { result ≡ going_specs.next_draw (part_of x.now) }
{
    if x.spare.is_empty() {
        Kind::LoadCounter {
            counter: Counter::Cells,
        }
    } else {
        load_reader_stamp(&x.current)
    }
}

// The store of a word of the row that the newest claim overwrites into its own cell.
fn next_copy(t: &AttemptState, k: u8) -> Kind
    ensures { result ≡ going_specs.next_copy (attempt_of t.now) k }
{
    let claim = t.newest_claim();
    Kind::StoreCell {
        claim: t.last_claim(),
        cell: own_number(claim.own),
        word: CellWord::Row(k),
        value: row_word(&claim.base, k),
    }
}

// The next step of a claim after its exchange, if it has one.
fn finish_step(x: &SeatState) -> Option<Kind>
    ensures { result ≡ finishes_specs.finish_step (part_of x.now) x.now.task }
{
    match x.task {
        Task::Claimed { .. } => Some(Kind::LoadTail {
            purpose: TailUse::Horizon,
        }),
        Task::Horizon { next, .. } => Some(Kind::LoadBegin { seat: next }),
        Task::CutWalks { version, .. } => Some(Kind::LoadCell {
            version,
            word: CellWord::Stamp,
        }),
        Task::CutPassed { version, .. } => Some(Kind::LoadCell {
            version,
            word: CellWord::Link,
        }),
        Task::CutFound { version, .. } => Some(Kind::SwapLink { version }),
        Task::Detaches { version } => Some(Kind::LoadDetached { version }),
        Task::Draws => Some(next_draw(x)),
        Task::Pool => Some(Kind::AddCounter {
            counter: Counter::Cells,
        }),
        Task::Fetched => Some(load_reader_stamp(&x.current)),
        Task::Copies { word } => Some(next_copy(&x.current, word)),
        _ => None,
    }
}

impl<L: RowLaw> Lists<L> {
    // The next step of the seat's claim after its exchange, if it has one.
    fn next_step(&self, seat: Seat) -> Option<Kind>
        requires session { is_session seat ≡ true }
        ensures { result ≡ finishes_specs.finish_step ((core_of self.now.state).seats seat) ((core_of self.now.state).seats seat).task }
    {
        finish_step(self.state.seat(seat))
    }

    // The version that the newest claim of the seat's transaction overwrites.
    fn newest(&self, seat: Seat) -> VersionAt
        requires session { is_session seat ≡ true }
        ensures { result ≡ going_specs.newest_of ((core_of self.now.state).seats seat).current }
    {
        self.state.seat(seat).current.newest_claim().version
    }

    // Goes on until the row is copied, or the claim is refused a cell.
    fn finish_steps(&mut self, seat: Seat)
        requires sound { SoundUnder L.law (core_of self.old.state) }
        requires at { IsAtWork seat (core_of self.old.state) }
        requires may { MayFinish self.old.state seat }
        ensures sound { SoundUnder L.law (core_of self.new.state) }
        ensures sessions { self.new.sessions ≡ self.old.sessions }
        ensures goes { GoesOn self.old.sessions seat (core_of self.old.state) (core_of self.new.state) }
        ensures finishes { is_finishing ((core_of self.new.state).seats seat).task ≡ true }
        ensures done { finishes_specs.finish_step ((core_of self.new.state).seats seat) ((core_of self.new.state).seats seat).task ≡ None }
    {
        erm_core::rooms_serve();
        erm_core::rooms_last();
        while let Some(kind) = self.next_step(seat) {
            self.take(seat, kind);
        }
    }

    // Finishes a claim whose entry was just exchanged: whether there was a cell for it. Where there is none the entry is released
    // again, and the claim is dropped.
    pub(crate) fn finish_claim(&mut self, seat: Seat) -> bool
        requires sound { SoundUnder L.law (core_of self.old.state) }
        requires session { is_session seat ≡ true }
        requires active { is_active ((core_of self.old.state).seats seat).place ≡ true }
        requires may { MayFinish self.old.state seat }
        ensures sound { SoundUnder L.law (core_of self.new.state) }
        ensures sessions { self.new.sessions ≡ self.old.sessions }
        ensures rests { ((core_of self.new.state).seats seat).task ≡ task.Rest }
        ensures active { is_active ((core_of self.new.state).seats seat).place ≡ true }
        ensures done { result ≡ true → IsUnseen self.old.sessions seat (core_of self.old.state) (core_of self.new.state) }
        ensures dropped { result ≡ false → IsDropped self.old.sessions seat (core_of self.old.state) (core_of self.new.state) }
    {
        self.finish_steps(seat);
        let Task::Refused = self.task(seat) else {
            return true;
        };
        let version = self.newest(seat);
        self.go(
            seat,
            Kind::Install {
                oid: version.oid,
                head: version.cell,
            },
        );
        false
    }
}
