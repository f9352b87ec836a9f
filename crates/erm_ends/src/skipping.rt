//! The end of a transaction that was excluded.
ghost use Rattle.std.specs.Prelude.{◌≡◌, true};
ghost use Rattle.erm_cells.specs.Spare.{SpareIs};
ghost use Rattle.erm_ends.specs.Ends.{DidSkip, MaySkip};
ghost use Rattle.erm_machine.specs.Words.{is_session};
ghost use Rattle.erm_precommit.specs.Pre.{IsPre};
ghost use Rattle.erm_rule.specs.Hands.{IsKnown};
ghost use Rattle.erm_rule.specs.Steps.{Fits};
ghost use Rattle.erm_rule.specs.Views.{view, part_of};
ghost use Rattle.erm_cells.specs.Took.{IsEndStep};
ghost use Rattle.erm_rule.specs.Books.{book};
ghost use Rattle.erm_rule.specs.Went.{Went};
ghost use Rattle.erm_ends.specs.Took.{TookSkip};

use crate::clearing::clear_reads;
use crate::leaving::leave;
use crate::releasing::release_claims;
use erm_cells::Spare;
use erm_model::{RowLaw, Seat};
use erm_precommit::Pre;
use erm_rule::{Pass, Table};

/// Ends a transaction that is decided and was excluded: releases its claims, clears its reader bits, then its begin word, and last
/// its state word. The seat is idle after it.
pub fn skip_end<L: RowLaw>(pre: &Pre, t: &Table<L>, p: &mut Pass, who: Seat, spare: &mut Spare)
    requires fits { Fits t.now.words.shared.table_id p.old }
    requires known { IsKnown (view p.old) }
    requires session { is_session who ≡ true }
    requires kept { IsPre pre.now (part_of (view p.old) who) }
    requires may { MaySkip (part_of (view p.old) who) }
    requires spare { SpareIs spare.old (part_of (view p.old) who) }
    ensures fits { Fits t.now.words.shared.table_id p.new }
    ensures skipped { DidSkip (view p.old) who (view p.new) }
    ensures spare { SpareIs spare.new (part_of (view p.new) who) }
    ensures ends { Went L.law who IsEndStep (book p.old) (book p.new) }
    ensures took { TookSkip L.law who (book p.old) (book p.new) }
{
    release_claims(t, p, who, spare, pre.claims.as_slice());
    clear_reads(t, p, who, pre.reads.as_slice());
    leave(t, p, who);
}
