//! The entry of an object that a safe snapshot reads.
ghost use Rattle.std.specs.Prelude.{◌≡◌, ◌<◌, true, ℕ};
ghost use Rattle.erm_machine.specs.declared.event.Kind.TheVariants.{LoadEntry};
ghost use Rattle.erm_machine.specs.Seat.{is_active, is_safe};
ghost use Rattle.erm_rule.specs.Books.{book};
ghost use Rattle.erm_rule.specs.Steps.{Booked, Fits};
ghost use Rattle.erm_rule.specs.Views.{view, part_of};
ghost use Rattle.erm_safe_reads.specs.Calls.{DidEnterSafe};

use erm_cells::load_entry;
use erm_kept::words::head_of;
use erm_machine::OBJECT_LIMIT;
use erm_model::{Oid, RowLaw, Seat};
use erm_rule::{Pass, Table};

/// Loads an object's entry for a safe snapshot, whoever owns it. The answer is the cell of the head of its chain, which is in hand then.
pub fn enter_safe<L: RowLaw>(t: &Table<L>, p: &mut Pass, who: Seat, oid: Oid) -> u32
    requires fits { Fits t.now.words.shared.table_id p.old }
    requires active { is_active (part_of (view p.old) who).place ≡ true }
    requires safe { is_safe (part_of (view p.old) who).task ≡ true }
    requires object { oid < OBJECT_LIMIT }
    ensures fits { Fits t.now.words.shared.table_id p.new }
    ensures entered { DidEnterSafe (view p.old) who oid result (view p.new) }
    ensures booked { (found : ℕ) × Booked L.law (book p.old) who (LoadEntry oid) found (book p.new) }
{
    let entry = load_entry(t, p, who, oid);
    head_of(entry)
}
