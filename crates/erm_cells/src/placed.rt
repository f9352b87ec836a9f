//! A step on a claim's own cell, where the claim's place is for the proof alone.
ghost use Rattle.std.specs.Prelude.{ℕ, IsSome};
ghost use Rattle.erm_cells.specs.Placed.{Owns, own_kind};
ghost use Rattle.erm_layout.specs.Layout.{IsInCell};
ghost use Rattle.erm_rule.specs.Hands.{IsKnown};
ghost use Rattle.erm_rule.specs.Books.{book};
ghost use Rattle.erm_rule.specs.Steps.{Fits, Ready, ToldUnder, Booked};
ghost use Rattle.erm_rule.specs.Views.{view, part_in, part_of};

use erm_layout::Word;
use erm_machine::CellWord;
use erm_model::{RowLaw, Seat};
use erm_rule::{Change, Pass, Table, step_as};
use std::marker::Brand;

/// Stores a word of this cell, which is a claim's own.
pub fn store_placed<L: RowLaw>(
    t: &Table<L>,
    p: &mut Pass,
    who: Seat,
    cell: u32,
    word: CellWord,
    value: u64,
)
    requires fits { Fits t.now.words.shared.table_id p.old }
    requires held { IsSome (part_in (view p.old) who) }
    requires known { IsKnown (view p.old) }
    requires word { IsInCell word }
    requires owned { Owns cell (part_of (view p.old) who) }
    requires ready { Ready (view p.old) who (own_kind (part_of (view p.old) who) cell word value) }
    ensures fits { Fits t.now.words.shared.table_id p.new }
    ensures told { (found : ℕ) × ToldUnder L.law (view p.old) who (own_kind (part_of (view p.old) who) cell word value) found (view p.new) }
    ensures booked { (found : ℕ) × Booked L.law (book p.old) who (own_kind (part_of (view p.old) who) cell word value) found (book p.new) }
{
    step_as::<L, Brand>(t, p, who, Word::Cell { cell, word }, Change::Set(value));
}
