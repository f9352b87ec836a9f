//! Finding the place of a cut: the newest version below the horizon.
ghost use Rattle.std.specs.Prelude.{◌≡◌, ◌-◌, ◌%◌, ◌^◌, ◌<◌, true, MatchOption};
ghost use Rattle.erm_cut.specs.Calls.{DidFindCut, DidFindNone, IsAtCut};
ghost use Rattle.erm_machine.specs.Seat.{is_active};
ghost use Rattle.erm_rule.specs.Books.{book};
ghost use Rattle.erm_rule.specs.Hands.{IsKnown};
ghost use Rattle.erm_rule.specs.Steps.{Fits};
ghost use Rattle.erm_rule.specs.Views.{view, part_of};
ghost use Rattle.erm_rule.specs.Went.{IsLoadStep, Went};

use erm_cells::load_walked;
use erm_machine::CellWord;
use erm_model::{RowLaw, Seat, Stamp};
use erm_rule::{Pass, Table};

/// Walks from the head, which is in this cell, to the newest version below the horizon. The answer is its cell; there is none where
/// the chain ends before one.
pub fn find_cut<L: RowLaw>(
    t: &Table<L>,
    p: &mut Pass,
    who: Seat,
    head: u32,
    horizon: Stamp,
) -> Option<u32>
    requires fits { Fits t.now.words.shared.table_id p.old }
    requires active { is_active (part_of (view p.old) who).place ≡ true }
    requires known { IsKnown (view p.old) }
    requires at { IsAtCut (part_of (view p.old) who).task head horizon }
    ensures fits { Fits t.now.words.shared.table_id p.new }
    ensures found { MatchOption result (DidFindNone (view p.old) who horizon (view p.new)) (λ cell. DidFindCut (view p.old) who horizon cell (view p.new)) }
    ensures loads { Went L.law who IsLoadStep (book p.old) (book p.new) }
{
    let mut cell = head;
    'walk: loop {
        let stamp = load_walked(t, p, who, cell, CellWord::Stamp);
        if stamp < horizon {
            return Some(cell);
        }
        let link = load_walked(t, p, who, cell, CellWord::Link);
        if link == 0 {
            return None;
        }
        cell = linked_cell(link);
    }
}

/// The cell that a link names.
pub(crate) fn linked_cell(link: u64) -> u32
    requires { 0 < link }
    ensures { result ≡ (link - 1) % 2 ^ 32 }
{
    ((link - 1) % (1 << 32)) as u32
}
