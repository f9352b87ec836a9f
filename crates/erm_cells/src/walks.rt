//! Steps on words of versions. The version is the one in hand of the seat's call, or one of its transaction's: its place is for
//! the proof alone.
ghost use Rattle.std.specs.Prelude.{◌≡◌, ◌^◌, ◌<◌, ℕ, true, IsSome};
ghost use Rattle.erm_cells.specs.Hands.{copied_kind, detached_kind, next_raised, newest_claimed, rated_kind, raise_kind, reader_kind, swap_kind};
ghost use Rattle.erm_machine.specs.Step.{has_word};
ghost use Rattle.erm_machine.specs.Words.{is_session};
ghost use Rattle.erm_rule.specs.Hands.{IsKnown, in_hand, walk_kind};
ghost use Rattle.erm_rule.specs.Books.{book};
ghost use Rattle.erm_rule.specs.Steps.{Fits, Ready, ToldUnder, Booked};
ghost use Rattle.erm_rule.specs.Views.{view, part_in, part_of};

use erm_layout::Word;
use erm_machine::{CellWord, OBJECT_LIMIT};
use erm_model::{ROW_WORDS, RowLaw, Seat, Stamp};
use erm_rule::{Change, Pass, Table, step_as};
use std::marker::Brand;

/// Loads a word of the version in hand, which is in this cell.
pub fn load_walked<L: RowLaw>(
    t: &Table<L>,
    p: &mut Pass,
    who: Seat,
    cell: u32,
    word: CellWord,
) -> u64
    requires fits { Fits t.now.words.shared.table_id p.old }
    requires held { IsSome (part_in (view p.old) who) }
    requires known { IsKnown (view p.old) }
    requires object { (in_hand (part_of (view p.old) who).task).oid < OBJECT_LIMIT }
    requires cell { (in_hand (part_of (view p.old) who).task).cell ≡ cell }
    requires word { has_word word ≡ true }
    requires ready { Ready (view p.old) who (walk_kind (part_of (view p.old) who) word) }
    ensures fits { Fits t.now.words.shared.table_id p.new }
    ensures told { ToldUnder L.law (view p.old) who (walk_kind (part_of (view p.old) who) word) result (view p.new) }
    ensures booked { Booked L.law (book p.old) who (walk_kind (part_of (view p.old) who) word) result (book p.new) }
{
    step_as::<L, Brand>(t, p, who, Word::Cell { cell, word }, Change::Keep)
}

/// Loads the reader stamp of the version that the newest claim overwrites, which is in this cell. Where the seat has a spare cell
/// the claim gets it.
pub fn load_rated<L: RowLaw>(t: &Table<L>, p: &mut Pass, who: Seat, cell: u32) -> Stamp
    requires fits { Fits t.now.words.shared.table_id p.old }
    requires held { IsSome (part_in (view p.old) who) }
    requires known { IsKnown (view p.old) }
    requires object { (newest_claimed (part_of (view p.old) who)).oid < OBJECT_LIMIT }
    requires cell { (newest_claimed (part_of (view p.old) who)).cell ≡ cell }
    requires ready { Ready (view p.old) who (rated_kind (part_of (view p.old) who)) }
    ensures fits { Fits t.now.words.shared.table_id p.new }
    ensures told { ToldUnder L.law (view p.old) who (rated_kind (part_of (view p.old) who)) result (view p.new) }
    ensures booked { Booked L.law (book p.old) who (rated_kind (part_of (view p.old) who)) result (book p.new) }
{
    let word = CellWord::ReaderStamp;
    step_as::<L, Brand>(t, p, who, Word::Cell { cell, word }, Change::Keep)
}

/// Loads the word at a place of the row of the version that the newest claim overwrites, which is in this cell.
pub fn load_copied<L: RowLaw>(t: &Table<L>, p: &mut Pass, who: Seat, cell: u32, place: u8) -> u64
    requires fits { Fits t.now.words.shared.table_id p.old }
    requires held { IsSome (part_in (view p.old) who) }
    requires known { IsKnown (view p.old) }
    requires object { (newest_claimed (part_of (view p.old) who)).oid < OBJECT_LIMIT }
    requires cell { (newest_claimed (part_of (view p.old) who)).cell ≡ cell }
    requires place { place < ROW_WORDS }
    requires ready { Ready (view p.old) who (copied_kind (part_of (view p.old) who) place) }
    ensures fits { Fits t.now.words.shared.table_id p.new }
    ensures told { ToldUnder L.law (view p.old) who (copied_kind (part_of (view p.old) who) place) result (view p.new) }
    ensures booked { Booked L.law (book p.old) who (copied_kind (part_of (view p.old) who) place) result (book p.new) }
{
    let word = CellWord::Row(place);
    step_as::<L, Brand>(t, p, who, Word::Cell { cell, word }, Change::Keep)
}

/// Swaps the link of the version in hand, which is in this cell, with 0: cuts the chain behind it. The answer is the link.
pub fn swap_link<L: RowLaw>(t: &Table<L>, p: &mut Pass, who: Seat, cell: u32) -> u64
    requires fits { Fits t.now.words.shared.table_id p.old }
    requires held { IsSome (part_in (view p.old) who) }
    requires known { IsKnown (view p.old) }
    requires object { (in_hand (part_of (view p.old) who).task).oid < OBJECT_LIMIT }
    requires cell { (in_hand (part_of (view p.old) who).task).cell ≡ cell }
    requires ready { Ready (view p.old) who (swap_kind (part_of (view p.old) who)) }
    ensures fits { Fits t.now.words.shared.table_id p.new }
    ensures told { ToldUnder L.law (view p.old) who (swap_kind (part_of (view p.old) who)) result (view p.new) }
    ensures booked { Booked L.law (book p.old) who (swap_kind (part_of (view p.old) who)) result (book p.new) }
{
    let word = CellWord::Link;
    step_as::<L, Brand>(t, p, who, Word::Cell { cell, word }, Change::Set(0))
}

/// Loads the link of the version in hand, which was cut off: its cell, this one, is a spare one.
pub fn load_detached<L: RowLaw>(t: &Table<L>, p: &mut Pass, who: Seat, cell: u32) -> u64
    requires fits { Fits t.now.words.shared.table_id p.old }
    requires held { IsSome (part_in (view p.old) who) }
    requires known { IsKnown (view p.old) }
    requires object { (in_hand (part_of (view p.old) who).task).oid < OBJECT_LIMIT }
    requires cell { (in_hand (part_of (view p.old) who).task).cell ≡ cell }
    requires ready { Ready (view p.old) who (detached_kind (part_of (view p.old) who)) }
    ensures fits { Fits t.now.words.shared.table_id p.new }
    ensures told { ToldUnder L.law (view p.old) who (detached_kind (part_of (view p.old) who)) result (view p.new) }
    ensures booked { Booked L.law (book p.old) who (detached_kind (part_of (view p.old) who)) result (book p.new) }
{
    let link = CellWord::Link;
    step_as::<L, Brand>(t, p, who, Word::Cell { cell, word: link }, Change::Keep)
}

/// Sets the own bit among the readers of the version in hand, which is in this cell: the version counts as read.
pub fn set_reader<L: RowLaw>(t: &Table<L>, p: &mut Pass, who: Seat, cell: u32)
    requires fits { Fits t.now.words.shared.table_id p.old }
    requires held { IsSome (part_in (view p.old) who) }
    requires session { is_session who ≡ true }
    requires known { IsKnown (view p.old) }
    requires object { (in_hand (part_of (view p.old) who).task).oid < OBJECT_LIMIT }
    requires cell { (in_hand (part_of (view p.old) who).task).cell ≡ cell }
    requires ready { Ready (view p.old) who (reader_kind (part_of (view p.old) who)) }
    ensures fits { Fits t.now.words.shared.table_id p.new }
    ensures told { (found : ℕ) × ToldUnder L.law (view p.old) who (reader_kind (part_of (view p.old) who)) found (view p.new) }
    ensures booked { (found : ℕ) × Booked L.law (book p.old) who (reader_kind (part_of (view p.old) who)) found (book p.new) }
{
    let word = CellWord::Readers;
    step_as::<L, Brand>(t, p, who, Word::Cell { cell, word }, Change::Or(bit(who)));
}

// The bit of a session.
fn bit(who: Seat) -> u64
    requires { is_session who ≡ true }
    ensures { result ≡ 2 ^ who }
{
    1 << who
}

/// Raises the reader stamp of the next version read, which is in this cell, to the own stamp.
pub fn raise_reader<L: RowLaw>(t: &Table<L>, p: &mut Pass, who: Seat, cell: u32, value: Stamp)
    requires fits { Fits t.now.words.shared.table_id p.old }
    requires held { IsSome (part_in (view p.old) who) }
    requires known { IsKnown (view p.old) }
    requires object { (next_raised (part_of (view p.old) who)).oid < OBJECT_LIMIT }
    requires cell { (next_raised (part_of (view p.old) who)).cell ≡ cell }
    requires ready { Ready (view p.old) who (raise_kind (part_of (view p.old) who) value) }
    ensures fits { Fits t.now.words.shared.table_id p.new }
    ensures told { (found : ℕ) × ToldUnder L.law (view p.old) who (raise_kind (part_of (view p.old) who) value) found (view p.new) }
    ensures booked { (found : ℕ) × Booked L.law (book p.old) who (raise_kind (part_of (view p.old) who) value) found (book p.new) }
{
    let word = CellWord::ReaderStamp;
    step_as::<L, Brand>(t, p, who, Word::Cell { cell, word }, Change::Raise(value));
}
