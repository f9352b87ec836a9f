//! The end of the claims of a transaction that doesn't commit.
ghost use Rattle.std.specs.Prelude.{◌≡◌, true};
ghost use Rattle.erm_cells.specs.Spare.{SpareIs};
ghost use Rattle.erm_ends.specs.Ends.{DidReleaseClaims, MayReleaseClaims};
ghost use Rattle.erm_entries.specs.Ends.{DidRelease, IsNextRelease, next_release};
ghost use Rattle.erm_machine.specs.Seat.{is_own};
ghost use Rattle.erm_rule.specs.Hands.{IsKnown};
ghost use Rattle.erm_rule.specs.Steps.{Fits};
ghost use Rattle.erm_rule.specs.Views.{view, part_of};
ghost use Rattle.erm_rule.specs.Books.{book};
ghost use Rattle.erm_ends.specs.Took.{TookReleases, WasFreed};

use erm_cells::{Spare, give_back};
use erm_entries::release;
use erm_model::{RowLaw, Seat};
use erm_precommit::KeptClaim;
use erm_rule::{Pass, Table};

// Releases the next claim: its entry gets the old head, without owner, and its cell is a spare one.
fn release_claim<L: RowLaw>(
    t: &Table<L>,
    p: &mut Pass,
    who: Seat,
    spare: &mut Spare,
    claim: KeptClaim,
)
    requires fits { Fits t.now.words.shared.table_id p.old }
    requires known { IsKnown (view p.old) }
    requires next { IsNextRelease (part_of (view p.old) who) claim.oid claim.overwritten }
    requires own { is_own claim.own (next_release (part_of (view p.old) who)).own ≡ true }
    requires spare { SpareIs spare.old (part_of (view p.old) who) }
    ensures fits { Fits t.now.words.shared.table_id p.new }
    ensures released { DidRelease (view p.old) who claim.oid claim.overwritten (view p.new) }
    ensures spare { SpareIs spare.new (part_of (view p.new) who) }
    ensures freed { WasFreed L.law who (part_of (view p.old) who).current.number (next_release (part_of (view p.old) who)).version (book p.old) (book p.new) }
{
    release(t, p, who, claim.oid, claim.overwritten);
    give_back(t, p, who, spare, claim.own);
}

/// Releases all claims, in order.
pub(crate) fn release_claims<L: RowLaw>(
    t: &Table<L>,
    p: &mut Pass,
    who: Seat,
    spare: &mut Spare,
    claims: &[KeptClaim],
)
    requires fits { Fits t.now.words.shared.table_id p.old }
    requires known { IsKnown (view p.old) }
    requires may { MayReleaseClaims claims.now (part_of (view p.old) who) }
    requires spare { SpareIs spare.old (part_of (view p.old) who) }
    ensures fits { Fits t.now.words.shared.table_id p.new }
    ensures released { DidReleaseClaims (view p.old) who (view p.new) }
    ensures spare { SpareIs spare.new (part_of (view p.new) who) }
    ensures took { TookReleases L.law who (part_of (view p.old) who).current (book p.old) (book p.new) }
{
    for k in 0..claims.len() {
        release_claim(t, p, who, spare, claims[k]);
    }
}
