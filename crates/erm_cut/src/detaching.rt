//! The cut itself: a link is swapped with 0, and the cells behind become spare ones.
ghost use Rattle.std.specs.Prelude.{◌≡◌, ◌≤◌, true};
ghost use Rattle.erm_cells.specs.Spare.{SpareIs};
ghost use Rattle.erm_cut.specs.Calls.{DidCut, DidDetach, IsAtCut, IsFoundCut};
ghost use Rattle.erm_machine.specs.Seat.{is_active};
ghost use Rattle.erm_rule.specs.Books.{book};
ghost use Rattle.erm_rule.specs.Hands.{IsKnown};
ghost use Rattle.erm_rule.specs.Steps.{Fits};
ghost use Rattle.erm_rule.specs.Views.{view, part_of};
ghost use Rattle.erm_cut.specs.Took.{TookCut, TookDetach};

use crate::finding::{find_cut, linked_cell};
use erm_cells::{Spare, load_detached, swap_link};
use erm_model::{RowLaw, Seat, Stamp};
use erm_rule::{Pass, Table};

/// Cuts the chain behind the version in hand, which is in this cell: its link becomes 0, and the cells of all older versions go to the
/// end of the seat's spare ones, the oldest first. The answer is how many they are.
pub fn detach<L: RowLaw>(t: &Table<L>, p: &mut Pass, who: Seat, cell: u32, spare: &mut Spare) -> u32
    requires fits { Fits t.now.words.shared.table_id p.old }
    requires active { is_active (part_of (view p.old) who).place ≡ true }
    requires known { IsKnown (view p.old) }
    requires found { IsFoundCut (part_of (view p.old) who).task cell }
    requires spare { SpareIs spare.old (part_of (view p.old) who) }
    ensures fits { Fits t.now.words.shared.table_id p.new }
    ensures detached { DidDetach (view p.old) who result (view p.new) }
    ensures spare { SpareIs spare.new (part_of (view p.new) who) }
    ensures took { TookDetach L.law who result (book p.old) (book p.new) }
{
    let mut link = swap_link(t, p, who, cell);
    let mut count = 0_u32;
    while link != 0 {
        let older = linked_cell(link);
        spare.push(older);
        link = load_detached(t, p, who, older);
        count += 1;
    }
    spare.reverse_end(count as usize);
    count
}

/// Cuts a chain whose head is in hand, in this cell, behind the newest version that is found below the horizon. The cells cut off
/// become spare ones: the answer is how many they are.
pub fn cut<L: RowLaw>(
    t: &Table<L>,
    p: &mut Pass,
    who: Seat,
    head: u32,
    horizon: Stamp,
    spare: &mut Spare,
) -> u32
    requires fits { Fits t.now.words.shared.table_id p.old }
    requires active { is_active (part_of (view p.old) who).place ≡ true }
    requires known { IsKnown (view p.old) }
    requires at { IsAtCut (part_of (view p.old) who).task head horizon }
    requires spare { SpareIs spare.old (part_of (view p.old) who) }
    ensures fits { Fits t.now.words.shared.table_id p.new }
    ensures cut { DidCut (view p.old) who horizon result (view p.new) }
    ensures spare { SpareIs spare.new (part_of (view p.new) who) }
    ensures took { TookCut L.law who result (book p.old) (book p.new) }
{
    match find_cut(t, p, who, head, horizon) {
        Some(cell) => detach(t, p, who, cell, spare),
        None => 0,
    }
}
