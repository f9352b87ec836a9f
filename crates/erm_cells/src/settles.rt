//! Steps of a settle and of an end on words of versions. The version is the one that the seat's call has come to.
ghost use Rattle.std.specs.Int.{bit_not, w64};
ghost use Rattle.std.specs.Prelude.{◌≡◌, ◌^◌, ◌<◌, ℕ, true, IsSome};
ghost use Rattle.erm_cells.specs.Hands.{clear_kind, ended_claim, mark_kind, next_cleared, rated_version, readers_kind, settled_claim, stamp_kind, succ_kind};
ghost use Rattle.erm_machine.specs.Step.{has_word};
ghost use Rattle.erm_machine.specs.Words.{is_session};
ghost use Rattle.erm_rule.specs.Hands.{IsKnown};
ghost use Rattle.erm_rule.specs.Books.{book};
ghost use Rattle.erm_rule.specs.Steps.{Fits, Ready, ToldUnder, Booked};
ghost use Rattle.erm_rule.specs.Views.{view, part_in, part_of};

use erm_layout::Word;
use erm_machine::{CellWord, OBJECT_LIMIT};
use erm_model::{RowLaw, Seat, Stamp};
use erm_rule::{Change, Pass, Table, step_as};
use std::marker::Brand;

/// Loads a stamp of the version that a read or a settle has come to, which is in this cell.
pub fn load_stamp<L: RowLaw>(
    t: &Table<L>,
    p: &mut Pass,
    who: Seat,
    cell: u32,
    word: CellWord,
) -> Stamp
    requires fits { Fits t.now.words.shared.table_id p.old }
    requires held { IsSome (part_in (view p.old) who) }
    requires known { IsKnown (view p.old) }
    requires object { (rated_version (part_of (view p.old) who)).oid < OBJECT_LIMIT }
    requires cell { (rated_version (part_of (view p.old) who)).cell ≡ cell }
    requires word { has_word word ≡ true }
    requires ready { Ready (view p.old) who (stamp_kind (part_of (view p.old) who) word) }
    ensures fits { Fits t.now.words.shared.table_id p.new }
    ensures told { ToldUnder L.law (view p.old) who (stamp_kind (part_of (view p.old) who) word) result (view p.new) }
    ensures booked { Booked L.law (book p.old) who (stamp_kind (part_of (view p.old) who) word) result (book p.new) }
{
    step_as::<L, Brand>(t, p, who, Word::Cell { cell, word }, Change::Keep)
}

/// Loads the reader bits of the version overwritten that a settle has come to, which is in this cell.
pub fn load_readers<L: RowLaw>(t: &Table<L>, p: &mut Pass, who: Seat, cell: u32) -> u64
    requires fits { Fits t.now.words.shared.table_id p.old }
    requires held { IsSome (part_in (view p.old) who) }
    requires known { IsKnown (view p.old) }
    requires object { (settled_claim (part_of (view p.old) who)).oid < OBJECT_LIMIT }
    requires cell { (settled_claim (part_of (view p.old) who)).cell ≡ cell }
    requires ready { Ready (view p.old) who (readers_kind (part_of (view p.old) who)) }
    ensures fits { Fits t.now.words.shared.table_id p.new }
    ensures told { ToldUnder L.law (view p.old) who (readers_kind (part_of (view p.old) who)) result (view p.new) }
    ensures booked { Booked L.law (book p.old) who (readers_kind (part_of (view p.old) who)) result (book p.new) }
{
    let word = CellWord::Readers;
    step_as::<L, Brand>(t, p, who, Word::Cell { cell, word }, Change::Keep)
}

/// Stores the own successor stamp into the version that the next claim to be installed overwrites, which is in this cell.
pub fn store_succ<L: RowLaw>(t: &Table<L>, p: &mut Pass, who: Seat, cell: u32, value: Stamp)
    requires fits { Fits t.now.words.shared.table_id p.old }
    requires held { IsSome (part_in (view p.old) who) }
    requires known { IsKnown (view p.old) }
    requires object { (ended_claim (part_of (view p.old) who)).oid < OBJECT_LIMIT }
    requires cell { (ended_claim (part_of (view p.old) who)).cell ≡ cell }
    requires ready { Ready (view p.old) who (succ_kind (part_of (view p.old) who) value) }
    ensures fits { Fits t.now.words.shared.table_id p.new }
    ensures told { (found : ℕ) × ToldUnder L.law (view p.old) who (succ_kind (part_of (view p.old) who) value) found (view p.new) }
    ensures booked { (found : ℕ) × Booked L.law (book p.old) who (succ_kind (part_of (view p.old) who) value) found (book p.new) }
{
    let word = CellWord::OverwriterSucc;
    step_as::<L, Brand>(t, p, who, Word::Cell { cell, word }, Change::Set(value));
}

/// Stores the own stamp as that version's overwriter's.
pub fn store_overwriter<L: RowLaw>(t: &Table<L>, p: &mut Pass, who: Seat, cell: u32, value: Stamp)
    requires fits { Fits t.now.words.shared.table_id p.old }
    requires held { IsSome (part_in (view p.old) who) }
    requires known { IsKnown (view p.old) }
    requires object { (ended_claim (part_of (view p.old) who)).oid < OBJECT_LIMIT }
    requires cell { (ended_claim (part_of (view p.old) who)).cell ≡ cell }
    requires ready { Ready (view p.old) who (mark_kind (part_of (view p.old) who) value) }
    ensures fits { Fits t.now.words.shared.table_id p.new }
    ensures told { (found : ℕ) × ToldUnder L.law (view p.old) who (mark_kind (part_of (view p.old) who) value) found (view p.new) }
    ensures booked { (found : ℕ) × Booked L.law (book p.old) who (mark_kind (part_of (view p.old) who) value) found (book p.new) }
{
    let word = CellWord::Overwriter;
    step_as::<L, Brand>(t, p, who, Word::Cell { cell, word }, Change::Set(value));
}

/// Clears the own bit among the readers of the next version read, which is in this cell.
pub fn clear_reader<L: RowLaw>(t: &Table<L>, p: &mut Pass, who: Seat, cell: u32)
    requires fits { Fits t.now.words.shared.table_id p.old }
    requires held { IsSome (part_in (view p.old) who) }
    requires known { IsKnown (view p.old) }
    requires object { (next_cleared (part_of (view p.old) who)).oid < OBJECT_LIMIT }
    requires cell { (next_cleared (part_of (view p.old) who)).cell ≡ cell }
    requires session { is_session who ≡ true }
    requires ready { Ready (view p.old) who (clear_kind (part_of (view p.old) who)) }
    ensures fits { Fits t.now.words.shared.table_id p.new }
    ensures told { (found : ℕ) × ToldUnder L.law (view p.old) who (clear_kind (part_of (view p.old) who)) found (view p.new) }
    ensures booked { (found : ℕ) × Booked L.law (book p.old) who (clear_kind (part_of (view p.old) who)) found (book p.new) }
{
    let word = CellWord::Readers;
    step_as::<L, Brand>(
        t,
        p,
        who,
        Word::Cell { cell, word },
        Change::And(other_bits(who)),
    );
}

// All bits but that of a session.
fn other_bits(who: Seat) -> u64
    requires { is_session who ≡ true }
    ensures { result ≡ bit_not w64 (2 ^ who) }
{
    !(1 << who)
}
