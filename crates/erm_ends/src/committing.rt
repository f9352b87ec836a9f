//! The end of a transaction that is committed.
ghost use Rattle.std.specs.Prelude.{◌≡◌, true};
ghost use Rattle.erm_ends.specs.Commits.{DidCommit, MayCommit};
ghost use Rattle.erm_machine.specs.Words.{is_session};
ghost use Rattle.erm_precommit.specs.Pre.{IsPre};
ghost use Rattle.erm_rule.specs.Hands.{IsKnown};
ghost use Rattle.erm_rule.specs.Steps.{Fits};
ghost use Rattle.erm_rule.specs.Views.{view, part_of};
ghost use Rattle.erm_cells.specs.Took.{IsEndStep};
ghost use Rattle.erm_rule.specs.Books.{book};
ghost use Rattle.erm_rule.specs.Went.{Went};
ghost use Rattle.erm_ends.specs.Took.{TookCommit};

use crate::backs::go_back;
use crate::clearing::clear_reads;
use crate::installing::install_claims;
use crate::leaving::leave;
use crate::raising::raise_reads;
use erm_model::{RowLaw, Seat};
use erm_precommit::Pre;
use erm_rule::{Pass, Table};

/// Ends a transaction that is decided as a commit: raises the reader stamps of the versions read, installs its claims, stores its stamp
/// in the back word where it goes back, clears its reader bits, then its begin word, and last its state word. The seat is idle after it.
pub fn commit_end<L: RowLaw>(pre: &Pre, t: &Table<L>, p: &mut Pass, who: Seat)
    requires fits { Fits t.now.words.shared.table_id p.old }
    requires known { IsKnown (view p.old) }
    requires session { is_session who ≡ true }
    requires kept { IsPre pre.now (part_of (view p.old) who) }
    requires may { MayCommit (part_of (view p.old) who) }
    ensures fits { Fits t.now.words.shared.table_id p.new }
    ensures committed { DidCommit (view p.old) who (view p.new) }
    ensures ends { Went L.law who IsEndStep (book p.old) (book p.new) }
    ensures took { TookCommit L.law who (book p.old) (book p.new) }
{
    raise_reads(t, p, who, pre.reads.as_slice(), pre.stamp);
    install_claims(t, p, who, pre.claims.as_slice(), pre.stamp, pre.succ);
    go_back(t, p, who, pre.stamp, pre.succ);
    clear_reads(t, p, who, pre.reads.as_slice());
    leave(t, p, who);
}
