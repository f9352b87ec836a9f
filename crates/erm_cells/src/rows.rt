//! Rows: loaded from a version's cell, and stored into a claim's own.
ghost use Rattle.std.specs.Prelude.{◌≡◌, true};
ghost use Rattle.erm_cells.specs.Hands.{newest_claimed};
ghost use Rattle.erm_cells.specs.Rows.{DidCopyRow, DidLoadBase, DidLoadRow, DidStoreRow, MayLoadRow, MayStoreRow, newest_base};
ghost use Rattle.erm_cells.specs.Spare.{NewestOwns};
ghost use Rattle.erm_machine.specs.declared.task.Task.TheVariants.{Copies};
ghost use Rattle.erm_machine.specs.Seat.{is_active};
ghost use Rattle.erm_rule.specs.Hands.{IsKnown, in_hand};
ghost use Rattle.erm_rule.specs.Steps.{Fits};
ghost use Rattle.erm_rule.specs.Views.{view, part_of};
ghost use Rattle.erm_cells.specs.Took.{TookCopy, TookRow};
ghost use Rattle.erm_rule.specs.Books.{book};
ghost use Rattle.erm_rule.specs.Went.{IsLoadStep, Went};

use crate::placed::store_placed;
use crate::walks::{load_copied, load_walked};
use erm_machine::CellWord;
use erm_model::{ROW_WORDS, Row, RowLaw, Seat};
use erm_rule::{Pass, Table};

/// Loads the row of the version in hand, which is registered and in this cell: the row that was read.
pub fn load_row<L: RowLaw>(t: &Table<L>, p: &mut Pass, who: Seat, cell: u32) -> Row
    requires fits { Fits t.now.words.shared.table_id p.old }
    requires known { IsKnown (view p.old) }
    requires active { is_active (part_of (view p.old) who).place ≡ true }
    requires registered { MayLoadRow (part_of (view p.old) who).task }
    requires cell { (in_hand (part_of (view p.old) who).task).cell ≡ cell }
    ensures fits { Fits t.now.words.shared.table_id p.new }
    ensures loaded { DidLoadRow (view p.old) who result (view p.new) }
    ensures loads { Went L.law who IsLoadStep (book p.old) (book p.new) }
{
    let mut row = [0; ROW_WORDS];
    for k in 0..ROW_WORDS {
        row[k] = load_walked(t, p, who, cell, CellWord::Row(k as u8));
    }
    row
}

/// Loads the row of the version that the newest claim overwrites, which is in this cell, to be copied.
pub fn load_base<L: RowLaw>(t: &Table<L>, p: &mut Pass, who: Seat, cell: u32) -> Row
    requires fits { Fits t.now.words.shared.table_id p.old }
    requires known { IsKnown (view p.old) }
    requires active { is_active (part_of (view p.old) who).place ≡ true }
    requires copies { (part_of (view p.old) who).task ≡ Copies 0 }
    requires cell { (newest_claimed (part_of (view p.old) who)).cell ≡ cell }
    ensures fits { Fits t.now.words.shared.table_id p.new }
    ensures loaded { DidLoadBase (view p.old) who result (view p.new) }
    ensures loads { Went L.law who IsLoadStep (book p.old) (book p.new) }
{
    let mut row = [0; ROW_WORDS];
    for k in 0..ROW_WORDS {
        row[k] = load_copied(t, p, who, cell, k as u8);
    }
    row
}

/// Stores a row into a claim's own cell: the row overwritten, to copy it, or a new one.
pub fn store_row<L: RowLaw>(t: &Table<L>, p: &mut Pass, who: Seat, cell: u32, row: &Row)
    requires fits { Fits t.now.words.shared.table_id p.old }
    requires known { IsKnown (view p.old) }
    requires active { is_active (part_of (view p.old) who).place ≡ true }
    requires may { MayStoreRow cell row.now (part_of (view p.old) who) (part_of (view p.old) who).task }
    ensures fits { Fits t.now.words.shared.table_id p.new }
    ensures stored { DidStoreRow (view p.old) who cell row.now (view p.new) }
    ensures stores { TookRow L.law who cell row.now (book p.old) (book p.new) }
{
    for k in 0..ROW_WORDS {
        store_placed(t, p, who, cell, CellWord::Row(k as u8), row[k]);
    }
}

/// Copies the row of the version that the newest claim overwrites, which is in one cell, into the claim's own cell. The answer is that
/// row.
pub fn copy_row<L: RowLaw>(t: &Table<L>, p: &mut Pass, who: Seat, base: u32, own: u32) -> Row
    requires fits { Fits t.now.words.shared.table_id p.old }
    requires known { IsKnown (view p.old) }
    requires active { is_active (part_of (view p.old) who).place ≡ true }
    requires copies { (part_of (view p.old) who).task ≡ Copies 0 }
    requires base { (newest_claimed (part_of (view p.old) who)).cell ≡ base }
    requires own { NewestOwns own (part_of (view p.old) who) }
    ensures fits { Fits t.now.words.shared.table_id p.new }
    ensures copied { DidCopyRow (view p.old) who own (view p.new) }
    ensures row { result ≡ newest_base (part_of (view p.old) who) }
    ensures took { TookCopy L.law who own result (book p.old) (book p.new) }
{
    let row = load_base(t, p, who, base);
    store_row(t, p, who, own, &row);
    row
}
