//! The table and its passes: made, cut in two, joined, and closed.
ghost use Rattle.std.specs.Prelude.{◌≡◌, ℕ, ◌+◌, ◌<◌, ◌≤◌, vec_len, IfOk};
ghost use Rattle.erm_model.specs.Rows.{rows_of};
ghost use Rattle.erm_rule.specs.Books.{book, left_book, right_book, both_books};
ghost use Rattle.erm_rule.specs.Rule.{first_book, first_view};
ghost use Rattle.erm_rule.specs.Steps.{Fits, EndsUnder};
ghost use Rattle.erm_rule.specs.Views.{view, left_of, right_of, joined, MayGive, MayJoin};

use crate::plays::{Cut, Glue};
use crate::rule::{Pass, Table};
use crate::view::Opening;
use crate::words::{first_words, rows_are_whole};
use erm_layout::{Word, index};
use erm_machine::{OBJECT_LIMIT, SESSIONS, STOP};
use erm_model::{RowLaw, Stamp};
use std::alloc::{AllocError, Global};

/// The table of a new opening, and the pass that has all seats: the flush seat, which is idle, and the sessions, of which the opening says
/// how many are idle, from the first on; the others are vacant.
/// The log of the opening begins at its tail, each object has its row of the opening, and objects are made from the first number on.
/// The rows meet the law, and reach no object from that number on.
pub fn open<L: RowLaw>(alloc: Global, opening: &Opening) -> Result<(Table<L>, Pass), AllocError>
    requires few { opening.now.sessions ≤ SESSIONS }
    requires positive { 0 < opening.now.tail }
    requires low { opening.now.tail ≤ STOP + 4 }
    requires first { opening.now.first ≤ OBJECT_LIMIT }
    requires rows { vec_len opening.now.rows ≡ OBJECT_LIMIT }
    requires meets { L.law.meets (rows_of opening.now.rows.items) }
    requires unreached { (oid : ℕ) → opening.now.first ≤ oid → L.law.reach (rows_of opening.now.rows.items) oid ≡ 0 }
    ensures fits { IfOk result (λ t. Fits t.0.words.shared.table_id t.1) }
    ensures view { IfOk result (λ t. view t.1 ≡ first_view opening.now) }
    ensures book { IfOk result (λ t. book t.1 ≡ first_book opening.now) }
    ensures opening { IfOk result (λ t. t.0.words.shared.key ≡ opening.now) }
{
    erm_sound::openings_are_sound();
    L::respects_rows();
    erm_core_blocks::openings_are_spelled();
    rows_are_whole(opening.rows.as_slice());
    let words = first_words(alloc, opening)?;
    let (words, pass) = atomic_table::Table::of_words(alloc, &words, opening)?;
    Ok((Table { words }, pass))
}

/// A pass with the last seat of this one, which is vacant and so becomes idle. It has seen what the first seat, which isn't
/// vacant, has seen. This pass keeps the others, and its steps.
pub fn split<L: RowLaw>(t: &Table<L>, p: &mut Pass) -> Pass
    requires fits { Fits t.now.words.shared.table_id p.old }
    requires gives { MayGive (view p.old) }
    ensures fits { Fits t.now.words.shared.table_id p.new × Fits t.now.words.shared.table_id result }
    ensures kept { view p.new ≡ left_of (view p.old) }
    ensures given { view result ≡ right_of (view p.old) }
    ensures books { (book p.new ≡ left_book (book p.old)) × (book result ≡ right_book (book p.old)) }
{
    erm_sound::events_keep_sound();
    erm_core_lives::law_is_kept::<L>();
    erm_core_blocks::blocks_stay_spelled();
    t.words.shared.split_seat::<Cut>(p)
}

/// Takes in another pass, with all of its seats. The first seat of this one has then seen what the first of the other had seen. The book
/// of the other is kept as it was.
pub fn join<L: RowLaw>(t: &Table<L>, p: &mut Pass, other: Pass)
    requires fits { Fits t.now.words.shared.table_id p.old × Fits t.now.words.shared.table_id other }
    requires takes { MayJoin (view p.old) }
    requires taken { MayJoin (view other) }
    ensures fits { Fits t.now.words.shared.table_id p.new }
    ensures joined { view p.new ≡ joined (view p.old) (view other) }
    ensures book { book p.new ≡ both_books (book p.old) (book other) }
{
    erm_sound::events_keep_sound();
    erm_core_lives::law_is_kept::<L>();
    erm_core_blocks::blocks_stay_spelled();
    t.words.shared.join_seat::<Glue>(p, other);
}

/// The table's end. The answer is the tail of the last state, in which the pass's seats have the parts that it says, to which the steps
/// that it has taken lead, and before which a state of each book was met that it took in.
pub fn close<L: RowLaw>(t: Table<L>, p: Pass) -> Stamp
    requires fits { Fits t.words.shared.table_id p }
    ensures ends { EndsUnder L.law t.words.shared.key (book p) result }
{
    let closed = t.words.close_with(p);
    let tail = closed.word(index(Word::Tail));
    closed.free();
    tail
}
