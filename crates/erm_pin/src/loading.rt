//! The row of the version that the flush seat has found.
ghost use Rattle.std.specs.Prelude.{◌≡◌, true};
ghost use Rattle.erm_machine.specs.Seat.{is_active};
ghost use Rattle.erm_machine.specs.declared.limits.TheConstants.{FLUSH_SEAT};
ghost use Rattle.erm_pin.specs.Pins.{HasFound};
ghost use Rattle.erm_pin.specs.Rows.{IsRowOf};
ghost use Rattle.erm_rule.specs.Books.{book};
ghost use Rattle.erm_rule.specs.Hands.{IsKnown, in_hand};
ghost use Rattle.erm_rule.specs.Steps.{Fits};
ghost use Rattle.erm_rule.specs.Views.{view, part_of};
ghost use Rattle.erm_rule.specs.Went.{IsLoadStep, Went};

use erm_cells::load_walked;
use erm_machine::{CellWord, FLUSH_SEAT};
use erm_model::{ROW_WORDS, Row, RowLaw};
use erm_rule::{Pass, Table};

/// Loads the row of the version that the flush seat has found, which is in this cell. It sets no bit among the version's readers: nobody
/// waits for a read as of a pin.
pub fn load_pinned<L: RowLaw>(t: &Table<L>, p: &mut Pass, cell: u32) -> Row
    requires fits { Fits t.now.words.shared.table_id p.old }
    requires known { IsKnown (view p.old) }
    requires active { is_active (part_of (view p.old) FLUSH_SEAT).place ≡ true }
    requires found { HasFound (part_of (view p.old) FLUSH_SEAT).task }
    requires cell { (in_hand (part_of (view p.old) FLUSH_SEAT).task).cell ≡ cell }
    ensures fits { Fits t.now.words.shared.table_id p.new }
    ensures same { view p.new ≡ view p.old }
    ensures row { IsRowOf (book p.new) (in_hand (part_of (view p.old) FLUSH_SEAT).task) result }
    ensures loads { Went L.law FLUSH_SEAT IsLoadStep (book p.old) (book p.new) }
{
    let mut row = [0; ROW_WORDS];
    for k in 0..ROW_WORDS {
        row[k] = load_walked(t, p, FLUSH_SEAT, cell, CellWord::Row(k as u8));
    }
    row
}
