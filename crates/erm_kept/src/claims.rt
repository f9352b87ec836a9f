//! The claims of a transaction and their own cells.
ghost use Rattle.std.specs.Prelude.{◌≡◌, ◌-◌, slice_set, vec_len};
ghost use Rattle.erm_machine.specs.Core as core_specs;
ghost use Rattle.erm_machine.specs.Reading as reading_specs;
ghost use Rattle.erm_machine.specs.Seat as seat_specs;
ghost use Rattle.erm_machine.specs.Settling as settling_specs;
ghost use Rattle.erm_machine.specs.declared.version.CellWord.TheVariants.{Row};
ghost use Rattle.erm_kept.specs.Attempts.{attempt_of, KeepsLists, KeepsSize};

use crate::AttemptState;
use crate::given_up::WithNewest;
use crate::words::put_word;
use boxcar::tag::Tag;
use erm_machine::{CellWord, Claim, OwnCell, VersionAt};
use erm_model::ROW_WORDS;

// A claim that nobody made.
fn no_claim() -> Claim
    ensures { result ≡ core_specs.no_claim }
{
    Claim {
        version: VersionAt {
            oid: 0,
            place: 0,
            cell: 0,
        },
        stamp: 0,
        base: [0; ROW_WORDS],
        row: [0; ROW_WORDS],
        own: None,
        is_set: false,
        held: false,
    }
}

/// Whether the cell is the claim's own one.
pub fn is_own(cell: u32, own: Option<OwnCell>) -> bool
    ensures { result ≡ seat_specs.is_own cell own }
{
    match own {
        Some(own) => own.cell == cell,
        None => false,
    }
}

/// Whether the own cell has the row of the version that the claim overwrites.
pub fn has_base(claim: &Claim) -> bool
    ensures { result ≡ reading_specs.has_base claim.now.base claim.now.own }
{
    match claim.own {
        Some(own) => own.words.row == claim.base,
        None => false,
    }
}

// Stores a word into a claim's own cell.
fn put_own_word(word: CellWord, value: u64, own: &mut Option<OwnCell>)
    ensures { own.new ≡ reading_specs.with_own_word word value own.old }
{
    if let Some(own) = own {
        put_word(word, value, &mut own.words);
    }
}

// Stores a word of a claim's new row, as a write or as a copy of the row overwritten.
fn put_row_word(k: u8, value: u64, is_set: bool, claim: &mut Claim)
    ensures { claim.new ≡ record claim.old { row = slice_set claim.old.row k value; own = reading_specs.with_own_word (Row k) value claim.old.own; is_set = is_set } }
{
    if (k as usize) < ROW_WORDS {
        claim.row[k as usize] = value;
    }
    put_own_word(CellWord::Row(k), value, &mut claim.own);
    claim.is_set = is_set;
}

impl AttemptState {
    /// The claim at a place.
    #[inline(always)]
    pub fn claim_at(&self, place: usize) -> Claim
        ensures { result ≡ core_specs.claim_at (attempt_of self.now) place }
    {
        match self.writes.get(place) {
            Some(claim) => *claim,
            None => no_claim(),
        }
    }

    /// The place of the newest claim.
    #[inline(always)]
    pub fn last_claim(&self) -> usize
        ensures { result ≡ seat_specs.last_claim (attempt_of self.now) }
    {
        self.writes.len().saturating_sub(1)
    }

    /// The newest claim.
    #[inline(always)]
    pub fn newest_claim(&self) -> Claim
        ensures { result ≡ core_specs.claim_at (attempt_of self.now) (seat_specs.last_claim (attempt_of self.now)) }
    {
        self.claim_at(self.last_claim())
    }

    /// The newest claim is given up.
    pub fn give_up(&mut self)
        ensures after { attempt_of self.new ≡ settling_specs.without_newest (attempt_of self.old) }
        ensures claims { vec_len self.new.writes ≡ vec_len self.old.writes - 1 }
        ensures others { self.new ≡ record self.old { writes = self.new.writes; given_up = self.new.given_up } }
        ensures lists { KeepsLists self.old self.new }
    {
        self.given_up = Tag::of::<AttemptState, WithNewest>(self);
        let place = self.last_claim();
        self.writes.truncate(place);
    }

    /// The newest claim gets this cell.
    pub fn set_cell(&mut self, own: OwnCell)
        ensures after { attempt_of self.new ≡ reading_specs.with_cell own (attempt_of self.old) }
        ensures size { KeepsSize self.old self.new }
    {
        let place = self.last_claim();
        if place < self.writes.len() {
            self.writes[place].own = Some(own);
        }
    }

    /// Stores a word into the own cell of the claim at a place.
    pub fn store_own(&mut self, place: usize, word: CellWord, value: u64)
        ensures after { attempt_of self.new ≡ reading_specs.stored_own place word value (attempt_of self.old) }
        ensures size { KeepsSize self.old self.new }
    {
        if place < self.writes.len() {
            put_own_word(word, value, &mut self.writes[place].own);
        }
    }

    /// Stores a word of the new row of the claim at a place, as a write or as a copy of the row overwritten.
    pub fn store_row(&mut self, place: usize, k: u8, value: u64, is_set: bool)
        ensures after { attempt_of self.new ≡ reading_specs.stored_row place k value is_set (attempt_of self.old) }
        ensures size { KeepsSize self.old self.new }
    {
        if place < self.writes.len() {
            put_row_word(k, value, is_set, &mut self.writes[place]);
        }
    }

    /// The row of the claim at a place is that of the version overwritten, and no write has set it.
    pub fn drop_row(&mut self, place: usize)
        ensures after { attempt_of self.new ≡ reading_specs.without_row place (attempt_of self.old) }
        ensures size { KeepsSize self.old self.new }
    {
        if place < self.writes.len() {
            let claim = &mut self.writes[place];
            claim.row = claim.base;
            claim.is_set = false;
        }
    }

    /// The value of a word of a claim's new version before its row.
    pub fn head_value(&self, claim: &Claim, word: CellWord) -> u64
        ensures { result ≡ settling_specs.head_value (attempt_of self.now) claim.now word }
    {
        match word {
            CellWord::Stamp => self.stamp,
            CellWord::Link => claim.version.cell as u64 + 1,
            CellWord::ReaderStamp => self.stamp,
            _ => 0,
        }
    }

    /// The claim at a place is over.
    pub fn drop_entry(&mut self, place: usize)
        ensures after { attempt_of self.new ≡ settling_specs.without_entry place (attempt_of self.old) }
        ensures size { KeepsSize self.old self.new }
    {
        if place < self.writes.len() {
            let claim = &mut self.writes[place];
            claim.held = false;
            claim.own = None;
        }
    }
}
