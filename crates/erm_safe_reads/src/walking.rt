//! The walk of a safe snapshot down a chain, to the version that it reads.
ghost use Rattle.std.specs.Prelude.{◌≡◌, ◌-◌, ◌%◌, ◌^◌, ◌<◌, true};
ghost use Rattle.erm_machine.specs.Seat.{is_active};
ghost use Rattle.erm_rule.specs.Books.{book};
ghost use Rattle.erm_rule.specs.Hands.{IsKnown};
ghost use Rattle.erm_rule.specs.Steps.{Fits};
ghost use Rattle.erm_rule.specs.Views.{view, part_of};
ghost use Rattle.erm_rule.specs.Went.{IsLoadStep, Went};
ghost use Rattle.erm_safe_reads.specs.Calls.{DidReachSafe, IsSafeWalking};

use erm_cells::load_walked;
use erm_machine::CellWord;
use erm_model::{RowLaw, Seat, Stamp};
use erm_rule::{Pass, Table};

/// Walks from the version in hand, which is in this cell, to the newest one below the begin stamp, which is this one: loads stamps, and
/// links to the next older versions. The answer is the cell of that version.
pub fn walk_safe<L: RowLaw>(t: &Table<L>, p: &mut Pass, who: Seat, cell: u32, begin: Stamp) -> u32
    requires fits { Fits t.now.words.shared.table_id p.old }
    requires known { IsKnown (view p.old) }
    requires active { is_active (part_of (view p.old) who).place ≡ true }
    requires walks { IsSafeWalking (part_of (view p.old) who).task cell }
    requires begin { (part_of (view p.old) who).current.begin ≡ begin }
    ensures fits { Fits t.now.words.shared.table_id p.new }
    ensures found { DidReachSafe (view p.old) who result (view p.new) }
    ensures loads { Went L.law who IsLoadStep (book p.old) (book p.new) }
{
    let mut at = cell;
    loop {
        let stamp = load_walked(t, p, who, at, CellWord::Stamp);
        if stamp < begin {
            return at;
        }
        let link = load_walked(t, p, who, at, CellWord::Link);
        at = linked(link);
    }
}

// The cell that a link names.
fn linked(link: u64) -> u32
    requires { 0 < link }
    ensures { result ≡ (link - 1) % 2 ^ 32 }
{
    ((link - 1) % (1 << 32)) as u32
}
