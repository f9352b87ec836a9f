//! The end of a claim where the transaction commits.
ghost use Rattle.std.specs.Prelude.{◌≡◌, ◌<◌, ℕ};
ghost use Rattle.erm_rule.specs.Steps.{Fits, Booked};
ghost use Rattle.erm_rule.specs.Views.{view, part_of};
ghost use Rattle.erm_entries.specs.Ends.{DidInstall, IsNextInstall};
ghost use Rattle.erm_machine.specs.declared.event.Kind.TheVariants.{Install};
ghost use Rattle.erm_rule.specs.Books.{book};

use erm_machine::OBJECT_LIMIT;
use erm_model::{Oid, RowLaw, Seat};
use erm_rule::{Pass, Table};

/// Installs the own cell of the next claim of a committed transaction as the head of the object's chain, without owner.
pub fn install<L: RowLaw>(t: &Table<L>, p: &mut Pass, who: Seat, oid: Oid, head: u32)
    requires fits { Fits t.now.words.shared.table_id p.old }
    requires object { oid < OBJECT_LIMIT }
    requires next { IsNextInstall (part_of (view p.old) who) oid head }
    ensures fits { Fits t.now.words.shared.table_id p.new }
    ensures installed { DidInstall (view p.old) who oid head (view p.new) }
    ensures booked { (found : ℕ) × Booked L.law (book p.old) who (Install oid head) found (book p.new) }
{
    erm_cells::install(t, p, who, oid, head);
}
