//! The cut of a claimed object's chain.
ghost use Rattle.std.specs.Prelude.{◌≡◌, ◌<◌, true};
ghost use Rattle.erm_cells.specs.Calls.{starts_anew};
ghost use Rattle.erm_cells.specs.Spare.{SpareIs};
ghost use Rattle.erm_machine.specs.Seat.{is_active};
ghost use Rattle.erm_machine.specs.Words.{is_session};
ghost use Rattle.erm_rows.specs.declared.active.Active.{Active};
ghost use Rattle.erm_rows.specs.Active.{IsActive};
ghost use Rattle.erm_rows.specs.Tidies.{DidTidy, HasClaim, TookTidy};
ghost use Rattle.erm_rule.specs.Books.{book};
ghost use Rattle.erm_rule.specs.Steps.{Fits};
ghost use Rattle.erm_rule.specs.Views.{view, part_of};
ghost use Rattle.erm_rule.specs.Went.{IsStillStep, Went};

use crate::claiming::cut_chain;
use erm_cells::Spare;
use erm_entries::load;
use erm_machine::OBJECT_LIMIT;
use erm_model::{Oid, RowLaw, Seat};
use erm_rule::{Pass, Table};

/// Cuts the chain of an object that the transaction has claimed: behind the newest version that any seat may still read. The answer is how
/// many cells became spare ones.
pub fn tidy_claimed<L: RowLaw>(
    spare: &mut Spare,
    t: &Table<L>,
    p: &mut Pass,
    who: Seat,
    oid: Oid,
) -> u32
    requires fits { Fits t.now.words.shared.table_id p.old }
    requires session { is_session who ≡ true }
    requires active { is_active (part_of (view p.old) who).place ≡ true }
    requires kept { (txn : Active) × IsActive txn (part_of (view p.old) who) }
    requires spare { SpareIs spare.old (part_of (view p.old) who) }
    requires starts { starts_anew (part_of (view p.old) who).task ≡ true }
    requires object { oid < OBJECT_LIMIT }
    requires claimed { HasClaim (part_of (view p.old) who) oid }
    ensures fits { Fits t.now.words.shared.table_id p.new }
    ensures spare { SpareIs spare.new (part_of (view p.new) who) }
    ensures tidied { DidTidy (view p.old) who result (view p.new) }
    ensures took { TookTidy L.law who oid result (book p.old) (book p.new) }
    ensures still { Went L.law who IsStillStep (book p.old) (book p.new) }
{
    let entry = load(t, p, who, oid);
    cut_chain(t, p, who, entry.head, spare)
}
