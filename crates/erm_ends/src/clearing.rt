//! The own reader bits are cleared.
ghost use Rattle.std.specs.Prelude.{◌≡◌, true};
ghost use Rattle.erm_ends.specs.Ends.{DidClearReads, MayClearReads};
ghost use Rattle.erm_machine.specs.Words.{is_session};
ghost use Rattle.erm_rule.specs.Hands.{IsKnown};
ghost use Rattle.erm_rule.specs.Steps.{Fits};
ghost use Rattle.erm_rule.specs.Views.{view, part_of};
ghost use Rattle.erm_rule.specs.Books.{book};
ghost use Rattle.erm_ends.specs.Took.{TookBitClears};

use erm_model::{RowLaw, Seat};
use erm_precommit::KeptRead;
use erm_readers::unregister;
use erm_rule::{Pass, Table};

/// Clears the own bit at all versions read, in order, once all claims are over.
pub(crate) fn clear_reads<L: RowLaw>(t: &Table<L>, p: &mut Pass, who: Seat, reads: &[KeptRead])
    requires fits { Fits t.now.words.shared.table_id p.old }
    requires known { IsKnown (view p.old) }
    requires session { is_session who ≡ true }
    requires may { MayClearReads reads.now (part_of (view p.old) who) }
    ensures fits { Fits t.now.words.shared.table_id p.new }
    ensures cleared { DidClearReads (view p.old) who (view p.new) }
    ensures took { TookBitClears L.law who (part_of (view p.old) who).current (book p.old) (book p.new) }
{
    for k in 0..reads.len() {
        unregister(t, p, who, reads[k].cell);
    }
}
