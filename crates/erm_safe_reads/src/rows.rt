//! The row of the version that a safe snapshot has found.
ghost use Rattle.std.specs.Prelude.{◌≡◌, true};
ghost use Rattle.erm_machine.specs.Seat.{is_active};
ghost use Rattle.erm_rule.specs.Books.{book};
ghost use Rattle.erm_rule.specs.Hands.{IsKnown};
ghost use Rattle.erm_rule.specs.Steps.{Fits};
ghost use Rattle.erm_rule.specs.Views.{view, part_of};
ghost use Rattle.erm_rule.specs.Went.{IsLoadStep, Went};
ghost use Rattle.erm_safe_reads.specs.Calls.{DidLoadSafeRow, IsSafeFound};

use erm_cells::load_walked;
use erm_machine::CellWord;
use erm_model::{ROW_WORDS, Row, RowLaw, Seat};
use erm_rule::{Pass, Table};

/// Loads the row of the version that was found, which is in this cell, word after word.
pub fn load_safe_row<L: RowLaw>(t: &Table<L>, p: &mut Pass, who: Seat, cell: u32) -> Row
    requires fits { Fits t.now.words.shared.table_id p.old }
    requires known { IsKnown (view p.old) }
    requires active { is_active (part_of (view p.old) who).place ≡ true }
    requires found { IsSafeFound (part_of (view p.old) who).task cell }
    ensures fits { Fits t.now.words.shared.table_id p.new }
    ensures loaded { DidLoadSafeRow (book p.old) who result (book p.new) }
    ensures loads { Went L.law who IsLoadStep (book p.old) (book p.new) }
{
    let mut row = [0; ROW_WORDS];
    for k in 0..ROW_WORDS {
        row[k] = load_walked(t, p, who, cell, CellWord::Row(k as u8));
    }
    row
}
