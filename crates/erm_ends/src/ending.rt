//! The end of a snapshot that only reads.
ghost use Rattle.std.specs.Prelude.{◌≡◌, true};
ghost use Rattle.erm_cells.specs.Took.{IsEndStep};
ghost use Rattle.erm_ends.specs.Ends.{DidAbort};
ghost use Rattle.erm_ends.specs.Safe.{DidEndSafe, TookEndSafe};
ghost use Rattle.erm_machine.specs.Seat.{is_active, is_snapshot};
ghost use Rattle.erm_machine.specs.Words.{is_session};
ghost use Rattle.erm_rule.specs.Books.{book};
ghost use Rattle.erm_rule.specs.Hands.{IsKnown};
ghost use Rattle.erm_rule.specs.Steps.{Fits};
ghost use Rattle.erm_rule.specs.Views.{view, part_of};
ghost use Rattle.erm_rule.specs.Went.{Went};

use erm_model::{RowLaw, Seat};
use erm_rule::{Pass, Table, store_begin};

/// Ends a snapshot, safe or not, wherever it stands: clears its begin word. It has nothing to release or to clear. The seat is idle after
/// it, and the snapshot over as a transaction is that was aborted.
pub fn end_safe<L: RowLaw>(t: &Table<L>, p: &mut Pass, who: Seat)
    requires fits { Fits t.now.words.shared.table_id p.old }
    requires known { IsKnown (view p.old) }
    requires session { is_session who ≡ true }
    requires active { is_active (part_of (view p.old) who).place ≡ true }
    requires snapshot { is_snapshot (part_of (view p.old) who).task ≡ true }
    ensures fits { Fits t.now.words.shared.table_id p.new }
    ensures ended { DidEndSafe (view p.old) who (view p.new) }
    ensures aborted { DidAbort (view p.old) who (view p.new) }
    ensures ends { Went L.law who IsEndStep (book p.old) (book p.new) }
    ensures took { TookEndSafe L.law who (book p.old) (book p.new) }
{
    store_begin(t, p, who, 0);
}
