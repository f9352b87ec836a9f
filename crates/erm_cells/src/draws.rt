//! Cells for claims: drawn from the spare ones or from the counter, and given back.
ghost use Rattle.std.specs.Prelude.{◌≡◌, [], ◌∷◌, ◌++◌, true, nat_lt, IfErr, IfOk, IsSome};
ghost use Rattle.erm_cells.specs.Hands.{newest_claimed, rated_kind};
ghost use Rattle.erm_cells.specs.Spare.{DidCount, DidDraw, DidRate, DidRefuse, MayRate, SpareIs, spare_cells};
ghost use Rattle.erm_machine.specs.declared.task.Task.TheVariants.{Draws};
ghost use Rattle.erm_machine.specs.Seat.{is_active};
ghost use Rattle.erm_rule.specs.Books.{book};
ghost use Rattle.erm_rule.specs.Hands.{IsKnown};
ghost use Rattle.erm_rule.specs.Steps.{Fits, ToldUnder, Booked};
ghost use Rattle.erm_rule.specs.Views.{view, part_in, part_of};
ghost use Rattle.erm_cells.specs.Took.{TookCount, TookDraw, TookNoCount};

use crate::own::{add_counter, load_counter};
use crate::spare::Spare;
use crate::walks::load_rated;
use erm_machine::Counter;
use erm_model::{RowLaw, Seat, Stamp, TABLE_CELLS};
use erm_rule::{Pass, Table};

/// Draws a cell for the newest claim: the last spare one, without a step, or one from the counter, while there is one. An error has the
/// counter seen, which is the number of the table's cells, or above it where others met its end at the same time.
pub fn draw<L: RowLaw>(t: &Table<L>, p: &mut Pass, who: Seat, spare: &mut Spare) -> Result<u32, u64>
    requires fits { Fits t.now.words.shared.table_id p.old }
    requires known { IsKnown (view p.old) }
    requires active { is_active (part_of (view p.old) who).place ≡ true }
    requires draws { (part_of (view p.old) who).task ≡ Draws }
    requires spare { SpareIs spare.old (part_of (view p.old) who) }
    ensures fits { Fits t.now.words.shared.table_id p.new }
    ensures drawn { IfOk result (λ cell. DidDraw (view p.old) who spare.new cell (view p.new)) }
    ensures refused { IfErr result (λ seen. DidRefuse (view p.old) who seen (view p.new) × SpareIs spare.new (part_of (view p.new) who)) }
    ensures took { IfOk result (λ cell. TookDraw L.law who spare.old cell (book p.old) (book p.new)) }
    ensures took_none { IfErr result (λ seen. TookNoCount L.law who seen (book p.old) (book p.new)) }
{
    match spare.pop() {
        Some(cell) => Ok(cell),
        None => draw_counted(t, p, who),
    }
}

// Draws a cell from the counter, where the seat has no spare one.
fn draw_counted<L: RowLaw>(t: &Table<L>, p: &mut Pass, who: Seat) -> Result<u32, u64>
    requires fits { Fits t.now.words.shared.table_id p.old }
    requires active { is_active (part_of (view p.old) who).place ≡ true }
    requires draws { (part_of (view p.old) who).task ≡ Draws }
    requires bare { (part_of (view p.old) who).spare ≡ [] }
    ensures fits { Fits t.now.words.shared.table_id p.new }
    ensures counted { IfOk result (λ cell. DidCount (view p.old) who cell (view p.new)) }
    ensures refused { IfErr result (λ seen. DidRefuse (view p.old) who seen (view p.new)) }
    ensures took { IfOk result (λ cell. TookCount L.law who cell (book p.old) (book p.new)) }
    ensures took_none { IfErr result (λ seen. TookNoCount L.law who seen (book p.old) (book p.new)) }
{
    let seen = load_counter(t, p, who, Counter::Cells);
    if !is_cell(seen) {
        return Err(seen);
    }
    let found = add_counter(t, p, who, Counter::Cells);
    if !is_cell(found) {
        return Err(found);
    }
    Ok(found as u32)
}

// Whether the table has a cell of this number.
fn is_cell(number: u64) -> bool
    ensures { result ≡ nat_lt number TABLE_CELLS }
{
    number < u64::from(TABLE_CELLS)
}

/// Loads the reader stamp of the version that the newest claim overwrites, which is in this cell. With it the claim has the cell that
/// was drawn.
pub fn rate<L: RowLaw>(t: &Table<L>, p: &mut Pass, who: Seat, cell: u32) -> Stamp
    requires fits { Fits t.now.words.shared.table_id p.old }
    requires known { IsKnown (view p.old) }
    requires active { is_active (part_of (view p.old) who).place ≡ true }
    requires cell { (newest_claimed (part_of (view p.old) who)).cell ≡ cell }
    requires drawn { MayRate (part_of (view p.old) who) (part_of (view p.old) who).task }
    ensures fits { Fits t.now.words.shared.table_id p.new }
    ensures told { ToldUnder L.law (view p.old) who (rated_kind (part_of (view p.old) who)) result (view p.new) }
    ensures booked { Booked L.law (book p.old) who (rated_kind (part_of (view p.old) who)) result (book p.new) }
    ensures rated { DidRate (view p.old) who result (view p.new) }
{
    load_rated(t, p, who, cell)
}

/// Puts the cell of a claim that was released, the last of the seat's spare cells by now, back into the list of spare ones.
pub fn give_back<L: RowLaw>(t: &Table<L>, p: &mut Pass, who: Seat, spare: &mut Spare, cell: u32)
    requires known { IsKnown (view p.old) }
    requires held { IsSome (part_in (view p.old) who) }
    requires released { spare.old ++ cell ∷ [] ≡ spare_cells (part_of (view p.old) who) }
    ensures same { p.new ≡ p.old }
    ensures spare { SpareIs spare.new (part_of (view p.new) who) }
{
    spare.push(cell);
}
