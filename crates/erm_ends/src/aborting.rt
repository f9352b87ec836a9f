//! The end of an active transaction.
ghost use Rattle.std.specs.Prelude.{◌≡◌, true};
ghost use Rattle.erm_cells.specs.Spare.{SpareIs};
ghost use Rattle.erm_ends.specs.Ends.{DidAbort, MayAbort};
ghost use Rattle.erm_machine.specs.Words.{is_session};
ghost use Rattle.erm_rule.specs.Hands.{IsKnown};
ghost use Rattle.erm_rule.specs.Steps.{Fits};
ghost use Rattle.erm_rule.specs.Views.{view, part_of};
ghost use Rattle.erm_cells.specs.Took.{IsEndStep};
ghost use Rattle.erm_rule.specs.Books.{book};
ghost use Rattle.erm_rule.specs.Went.{Went};
ghost use Rattle.erm_ends.specs.Took.{TookAbort};

use crate::clearing::clear_reads;
use crate::releasing::release_claims;
use erm_cells::Spare;
use erm_model::{RowLaw, Seat};
use erm_precommit::{KeptClaim, KeptRead};
use erm_rule::{Pass, Table, store_begin};

/// Aborts an active transaction, which has read and claimed this: releases its claims, clears its reader bits, and then its begin
/// word. The seat is idle after it.
pub fn abort<L: RowLaw>(
    t: &Table<L>,
    p: &mut Pass,
    who: Seat,
    spare: &mut Spare,
    reads: &[KeptRead],
    claims: &[KeptClaim],
)
    requires fits { Fits t.now.words.shared.table_id p.old }
    requires known { IsKnown (view p.old) }
    requires session { is_session who ≡ true }
    requires may { MayAbort reads.now claims.now (part_of (view p.old) who) }
    requires spare { SpareIs spare.old (part_of (view p.old) who) }
    ensures fits { Fits t.now.words.shared.table_id p.new }
    ensures aborted { DidAbort (view p.old) who (view p.new) }
    ensures spare { SpareIs spare.new (part_of (view p.new) who) }
    ensures ends { Went L.law who IsEndStep (book p.old) (book p.new) }
    ensures took { TookAbort L.law who (book p.old) (book p.new) }
{
    release_claims(t, p, who, spare, claims);
    clear_reads(t, p, who, reads);
    store_begin(t, p, who, 0);
}
