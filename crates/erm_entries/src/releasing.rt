//! The end of a claim where the transaction doesn't commit.
ghost use Rattle.std.specs.Prelude.{◌≡◌, ◌<◌, ℕ};
ghost use Rattle.erm_rule.specs.Steps.{Fits, Booked};
ghost use Rattle.erm_rule.specs.Views.{view, part_of};
ghost use Rattle.erm_entries.specs.Ends.{DidRelease, IsNextRelease};
ghost use Rattle.erm_machine.specs.declared.event.Kind.TheVariants.{Install};
ghost use Rattle.erm_rule.specs.Books.{book};

use erm_machine::OBJECT_LIMIT;
use erm_model::{Oid, RowLaw, Seat};
use erm_rule::{Pass, Table};

/// Releases the entry of the next claim of a transaction that was excluded or aborts: it gets its old head, without owner, and
/// the claim's cell is a spare one.
pub fn release<L: RowLaw>(t: &Table<L>, p: &mut Pass, who: Seat, oid: Oid, head: u32)
    requires fits { Fits t.now.words.shared.table_id p.old }
    requires object { oid < OBJECT_LIMIT }
    requires next { IsNextRelease (part_of (view p.old) who) oid head }
    ensures fits { Fits t.now.words.shared.table_id p.new }
    ensures released { DidRelease (view p.old) who oid head (view p.new) }
    ensures booked { (found : ℕ) × Booked L.law (book p.old) who (Install oid head) found (book p.new) }
{
    erm_cells::install(t, p, who, oid, head);
}
