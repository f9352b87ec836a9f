//! A committed transaction raises the reader stamps of the versions that it has read.
ghost use Rattle.erm_ends.specs.Commits.{DidRaiseReads, MayRaiseReads};
ghost use Rattle.erm_rule.specs.Hands.{IsKnown};
ghost use Rattle.erm_rule.specs.Steps.{Fits};
ghost use Rattle.erm_rule.specs.Views.{view, part_of};
ghost use Rattle.erm_rule.specs.Books.{book};
ghost use Rattle.erm_ends.specs.Took.{TookRaises};

use erm_model::{RowLaw, Seat, Stamp};
use erm_precommit::KeptRead;
use erm_readers::raise;
use erm_rule::{Pass, Table};

/// Raises the reader stamps of all versions read, in order, to the own stamp.
pub(crate) fn raise_reads<L: RowLaw>(
    t: &Table<L>,
    p: &mut Pass,
    who: Seat,
    reads: &[KeptRead],
    stamp: Stamp,
)
    requires fits { Fits t.now.words.shared.table_id p.old }
    requires known { IsKnown (view p.old) }
    requires may { MayRaiseReads reads.now stamp (part_of (view p.old) who) }
    ensures fits { Fits t.now.words.shared.table_id p.new }
    ensures raised { DidRaiseReads (view p.old) who (view p.new) }
    ensures took { TookRaises L.law who (part_of (view p.old) who).current (book p.old) (book p.new) }
{
    for k in 0..reads.len() {
        raise(t, p, who, reads[k].cell, stamp);
    }
}
