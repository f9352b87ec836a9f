//! The state of the running machine.
mod change;
mod opening;
mod room;
mod run;
mod step;

ghost use Rattle.std.specs.Prelude.{◌≡◌, ◌+◌, ◌%◌, ◌<◌, ◌≤◌, Some, None, vec_len, vec_capacity};
ghost use Rattle.erm_machine.specs.declared.limits.TheConstants.{ANNOUNCERS, OBJECT_LIMIT, RING_WORDS};
ghost use Rattle.erm_kept.specs.Attempts.{attempt_of};
ghost use Rattle.erm_kept.specs.Objects.{object_of};
ghost use Rattle.erm_machine.specs.Core as core_specs;
ghost use Rattle.erm_machine.specs.Words as word_specs;
ghost use Rattle.erm_core.specs.Seats.{promised_in, AreNumbered};

use erm_kept::words::{begin_of, blank_cell, cell_word, state_of};
use erm_kept::{AttemptState, ObjectState};
use erm_machine::{CellWord, Counter, Kind, OwnCell, RING_WORDS, Span, VersionAt};
use erm_model::{Oid, Seat, Stamp};
use erm_seat::SeatState;

// A word of the version of an object at a place.
fn word_of_version(object: &ObjectState, place: usize, word: CellWord) -> u64
    ensures { result ≡ word_specs.cell_word word (core_specs.version_at (object_of object.now) place).words }
{
    match object.versions.get(place) {
        Some(version) => cell_word(word, &version.words),
        None => cell_word(word, &blank_cell()),
    }
}

// A word of a claim's own cell, or of a blank one where it has none.
fn word_of_own(own: &Option<OwnCell>, word: CellWord) -> u64
    ensures { result ≡ word_specs.cell_word word (core_specs.own_words own.now) }
{
    match own {
        Some(own) => cell_word(word, &own.words),
        None => cell_word(word, &blank_cell()),
    }
}

// A word of the own cell of the claim at a place.
fn word_of_claim(t: &AttemptState, place: usize, word: CellWord) -> u64
    ensures { result ≡ word_specs.cell_word word (core_specs.own_words (core_specs.claim_at (attempt_of t.now) place).own) }
{
    match t.writes.get(place) {
        Some(claim) => word_of_own(&claim.own, word),
        None => cell_word(word, &blank_cell()),
    }
}

/// The state of the machine: what the seats share, and what each keeps.
#[derive(Drop)]
pub struct State {
    pub(crate) run: u64,
    pub(crate) opening: Stamp,
    /// The number of the first object that is made.
    pub(crate) first: u64,
    /// How many cells there are.
    pub(crate) cell_limit: u32,
    pub(crate) tail: Stamp,
    pub(crate) log: Vec<Span>,
    pub(crate) flushed: Stamp,
    pub(crate) objects_drawn: u64,
    pub(crate) cells_drawn: u64,
    pub(crate) objects: Vec<ObjectState>,
    pub(crate) ring: Vec<u64>,
    pub(crate) seats: Vec<SeatState>,
    // All objects, all words of the ring, and all seats.
    ghost all_objects: { vec_len objects ≡ OBJECT_LIMIT },
    ghost all_words: { vec_len ring ≡ RING_WORDS },
    ghost all_seats: { vec_len seats ≡ ANNOUNCERS },
    ghost numbered: { AreNumbered seats.items },
    // Room for a range of each seat that was promised one: each transaction in progress can be carried to its end.
    ghost log_room: { vec_len log + promised_in seats.items ≤ vec_capacity log },
}

impl State {
    ghost use Rattle.erm_core.specs.Cores.{core_of, shared_of};
    ghost use Rattle.erm_seat.specs.Kinds.{IsPlain};
    ghost use Rattle.erm_seat.specs.Parts.{part_of};

    /// The tail.
    pub fn tail(&self) -> Stamp
        ensures { result ≡ (shared_of self.now).tail }
    {
        self.tail
    }

    /// The place below which all is synced.
    pub fn flushed(&self) -> Stamp
        ensures { result ≡ (shared_of self.now).flushed }
    {
        self.flushed
    }

    /// The run of the log that this opening writes.
    pub fn run_number(&self) -> u64
        ensures { result ≡ (shared_of self.now).run }
    {
        self.run
    }

    /// The place where the opening's log begins.
    pub fn opening(&self) -> Stamp
        ensures { result ≡ (shared_of self.now).opening }
    {
        self.opening
    }

    /// The number of the first object that is made.
    pub fn first(&self) -> u64
        ensures { result ≡ (shared_of self.now).first }
    {
        self.first
    }

    /// How many cells there are.
    pub fn cell_limit(&self) -> u32
        ensures { result ≡ (shared_of self.now).cell_limit }
    {
        self.cell_limit
    }

    /// The counter of objects.
    pub fn objects_drawn(&self) -> u64
        ensures { result ≡ (shared_of self.now).objects_drawn }
    {
        self.objects_drawn
    }

    /// The counter of cells.
    pub fn cells_drawn(&self) -> u64
        ensures { result ≡ (shared_of self.now).cells_drawn }
    {
        self.cells_drawn
    }

    /// An object below the limit, as it is kept.
    pub fn object(&self, oid: Oid) -> &ObjectState
        requires { oid < OBJECT_LIMIT }
        ensures { object_of result.now ≡ (core_of self.now).shared.objects oid }
    {
        &self.objects[oid as usize]
    }

    /// A seat that has words, as it is kept.
    pub fn seat(&self, seat: Seat) -> &SeatState
        requires { seat < ANNOUNCERS }
        ensures { part_of result.now ≡ (core_of self.now).seats seat }
    {
        &self.seats[seat as usize]
    }

    // The begin word of a seat.
    fn begin_word(&self, seat: Seat) -> u64
        ensures { result ≡ core_specs.word_at (core_of self.now) (core_specs.begin_word seat) }
    {
        match self.seats.get(seat as usize) {
            Some(x) => begin_of(x.place),
            None => 0,
        }
    }

    // The state word of a seat.
    fn state_word(&self, seat: Seat) -> u64
        ensures { result ≡ core_specs.word_at (core_of self.now) (core_specs.state_word seat) }
    {
        match self.seats.get(seat as usize) {
            Some(x) => state_of(x.place),
            None => 0,
        }
    }

    // The back word of a seat.
    fn back_word(&self, seat: Seat) -> u64
        ensures { result ≡ core_specs.word_at (core_of self.now) (core_specs.back_word seat) }
    {
        match self.seats.get(seat as usize) {
            Some(x) => x.back,
            None => 0,
        }
    }

    // The entry of an object.
    fn entry_word(&self, oid: Oid) -> u64
        ensures { result ≡ core_specs.word_at (core_of self.now) (core_specs.entry_word oid) }
    {
        match self.objects.get(oid as usize) {
            Some(object) => object.entry,
            None => 0,
        }
    }

    // A word of a version.
    fn version_word(&self, version: VersionAt, word: CellWord) -> u64
        ensures { result ≡ core_specs.word_at (core_of self.now) (core_specs.version_word version word) }
    {
        match self.objects.get(version.oid as usize) {
            Some(object) => word_of_version(object, version.place, word),
            None => cell_word(word, &blank_cell()),
        }
    }

    // A word of the own cell of a seat's claim.
    fn own_word(&self, seat: Seat, claim: usize, cell: u32, word: CellWord) -> u64
        ensures { result ≡ core_specs.word_at (core_of self.now) (core_specs.own_word seat claim cell word) }
    {
        match self.seats.get(seat as usize) {
            Some(x) => word_of_claim(&x.current, claim, word),
            None => cell_word(word, &blank_cell()),
        }
    }

    /// A word of the ring.
    pub fn ring_word(&self, at: Stamp) -> u64
        ensures { result ≡ core_specs.word_at (core_of self.now) (core_specs.ring_word (at % RING_WORDS)) }
    {
        match self.ring.get((at % RING_WORDS) as usize) {
            Some(word) => *word,
            None => 0,
        }
    }

    fn counter_word(&self, counter: Counter) -> u64
        ensures { result ≡ core_specs.word_at (core_of self.now) (core_specs.counter_word counter) }
    {
        match counter {
            Counter::Objects => self.objects_drawn,
            Counter::Cells => self.cells_drawn,
        }
    }

    // The word that a step of a life or of the log meets; 0 for those of objects.
    fn plain_word(&self, seat: Seat, kind: Kind) -> u64
        ensures { IsPlain kind → result ≡ core_specs.word_at (core_of self.now) (core_specs.spot_of seat kind) }
    {
        match kind {
            Kind::LoadTail { .. } | Kind::AddTail { .. } => self.tail,
            Kind::StoreBegin { .. } => self.begin_word(seat),
            Kind::StoreState { .. } => self.state_word(seat),
            Kind::LoadBegin { seat: other } => self.begin_word(other),
            Kind::LoadState { seat: other, .. } => self.state_word(other),
            Kind::StoreBack { .. } => self.back_word(seat),
            Kind::LoadBack { seat: other } => self.back_word(other),
            Kind::LoadCounter { counter } | Kind::AddCounter { counter } => {
                self.counter_word(counter)
            }
            Kind::StoreRing { at, .. }
            | Kind::Decide { at, .. }
            | Kind::LoadRing { at }
            | Kind::ClearRing { at } => self.ring_word(at),
            Kind::StoreFlushed { .. } | Kind::LoadFlushed => self.flushed,
            _ => 0,
        }
    }

    /// The word that a step of this kind meets.
    pub fn word(&self, seat: Seat, kind: Kind) -> u64
        ensures { result ≡ core_specs.word_at (core_of self.now) (core_specs.spot_of seat kind) }
    {
        match kind {
            Kind::LoadEntry { oid } | Kind::Claim { oid, .. } | Kind::Install { oid, .. } => {
                self.entry_word(oid)
            }
            Kind::LoadCell { version, word } | Kind::LoadStamp { version, word } => {
                self.version_word(version, word)
            }
            Kind::StoreCell {
                claim,
                cell,
                word,
                ..
            } => self.own_word(seat, claim, cell, word),
            Kind::SetReader { version }
            | Kind::ClearReader { version }
            | Kind::LoadReaders { version } => self.version_word(version, CellWord::Readers),
            Kind::RaiseReader { version, .. } => self.version_word(version, CellWord::ReaderStamp),
            Kind::StoreSucc { version, .. } => self.version_word(version, CellWord::OverwriterSucc),
            Kind::StoreOverwriter { version, .. } => self.version_word(
                version,
                CellWord::Overwriter,
            ),
            Kind::SwapLink { version } | Kind::LoadDetached { version } => {
                self.version_word(version, CellWord::Link)
            }
            _ => self.plain_word(seat, kind),
        }
    }
}
