//! Steps on the ring of the log's last words and on the place flushed.
ghost use Rattle.std.specs.Prelude.{◌≡◌, ℕ, IsSome};
ghost use Rattle.erm_machine.specs.declared.event.Kind.TheVariants.{StoreRing, Decide, LoadRing, ClearRing, StoreFlushed, LoadFlushed};
ghost use Rattle.erm_core_blocks.specs.Spelled.{IsSpelled, decided_by};
ghost use Rattle.erm_rule.specs.Books.{book};
ghost use Rattle.erm_rule.specs.Steps.{Fits, Ready, ToldUnder, Booked};
ghost use Rattle.erm_rule.specs.Views.{view, part_in, part_of};

use erm_layout::Word;
use erm_machine::{Kind, RING_WORDS};
use erm_model::{RowLaw, Seat, Stamp};
use erm_rule::{Change, Pass, Table, step};

/// Stores a word of the own block behind its header.
pub fn store_ring<L: RowLaw>(t: &Table<L>, p: &mut Pass, who: Seat, at: Stamp, value: u64)
    requires fits { Fits t.now.words.shared.table_id p.old }
    requires held { IsSome (part_in (view p.old) who) }
    requires ready { Ready (view p.old) who (StoreRing at value) }
    ensures fits { Fits t.now.words.shared.table_id p.new }
    ensures told { (found : ℕ) × ToldUnder L.law (view p.old) who (StoreRing at value) found (view p.new) }
    ensures booked { (found : ℕ) × Booked L.law (book p.old) who (StoreRing at value) found (book p.new) }
{
    let kind = Kind::StoreRing { at, value };
    step(
        t,
        p,
        who,
        kind,
        Word::Ring(at % RING_WORDS),
        Change::Set(value),
    );
}

/// Stores the header of the own block: the decision. The transaction that is decided is spelled.
pub fn decide<L: RowLaw>(t: &Table<L>, p: &mut Pass, who: Seat, at: Stamp, header: u64)
    requires fits { Fits t.now.words.shared.table_id p.old }
    requires held { IsSome (part_in (view p.old) who) }
    requires ready { Ready (view p.old) who (Decide at header) }
    requires spelled { IsSpelled (part_of (view p.old) who).run who (decided_by header (part_of (view p.old) who).current) }
    ensures fits { Fits t.now.words.shared.table_id p.new }
    ensures told { (found : ℕ) × ToldUnder L.law (view p.old) who (Decide at header) found (view p.new) }
    ensures booked { (found : ℕ) × Booked L.law (book p.old) who (Decide at header) found (book p.new) }
{
    let kind = Kind::Decide { at, header };
    step(
        t,
        p,
        who,
        kind,
        Word::Ring(at % RING_WORDS),
        Change::Set(header),
    );
}

/// Loads a word of the ring.
pub fn load_ring<L: RowLaw>(t: &Table<L>, p: &mut Pass, who: Seat, at: Stamp) -> u64
    requires fits { Fits t.now.words.shared.table_id p.old }
    requires held { IsSome (part_in (view p.old) who) }
    requires ready { Ready (view p.old) who (LoadRing at) }
    ensures fits { Fits t.now.words.shared.table_id p.new }
    ensures told { ToldUnder L.law (view p.old) who (LoadRing at) result (view p.new) }
    ensures booked { Booked L.law (book p.old) who (LoadRing at) result (book p.new) }
{
    let kind = Kind::LoadRing { at };
    step(t, p, who, kind, Word::Ring(at % RING_WORDS), Change::Keep)
}

/// Clears a word of the ring.
pub fn clear_ring<L: RowLaw>(t: &Table<L>, p: &mut Pass, who: Seat, at: Stamp)
    requires fits { Fits t.now.words.shared.table_id p.old }
    requires held { IsSome (part_in (view p.old) who) }
    requires ready { Ready (view p.old) who (ClearRing at) }
    ensures fits { Fits t.now.words.shared.table_id p.new }
    ensures told { (found : ℕ) × ToldUnder L.law (view p.old) who (ClearRing at) found (view p.new) }
    ensures booked { (found : ℕ) × Booked L.law (book p.old) who (ClearRing at) found (book p.new) }
{
    let kind = Kind::ClearRing { at };
    step(t, p, who, kind, Word::Ring(at % RING_WORDS), Change::Set(0));
}

/// Stores the place flushed.
pub fn store_flushed<L: RowLaw>(t: &Table<L>, p: &mut Pass, who: Seat, value: Stamp)
    requires fits { Fits t.now.words.shared.table_id p.old }
    requires held { IsSome (part_in (view p.old) who) }
    requires ready { Ready (view p.old) who (StoreFlushed value) }
    ensures fits { Fits t.now.words.shared.table_id p.new }
    ensures told { (found : ℕ) × ToldUnder L.law (view p.old) who (StoreFlushed value) found (view p.new) }
    ensures booked { (found : ℕ) × Booked L.law (book p.old) who (StoreFlushed value) found (book p.new) }
{
    let kind = Kind::StoreFlushed { value };
    step(t, p, who, kind, Word::Flushed, Change::Set(value));
}

/// Loads the place flushed.
pub fn load_flushed<L: RowLaw>(t: &Table<L>, p: &mut Pass, who: Seat) -> Stamp
    requires fits { Fits t.now.words.shared.table_id p.old }
    requires held { IsSome (part_in (view p.old) who) }
    requires ready { Ready (view p.old) who LoadFlushed }
    ensures fits { Fits t.now.words.shared.table_id p.new }
    ensures told { ToldUnder L.law (view p.old) who LoadFlushed result (view p.new) }
    ensures booked { Booked L.law (book p.old) who LoadFlushed result (book p.new) }
{
    step(t, p, who, Kind::LoadFlushed, Word::Flushed, Change::Keep)
}
