//! A committed transaction installs its claims.
ghost use Rattle.erm_ends.specs.Commits.{DidInstallClaim, DidInstallClaims, IsNextCommit, MayInstallClaims};
ghost use Rattle.erm_entries.specs.Ends.{next_install};
ghost use Rattle.erm_rule.specs.Hands.{IsKnown};
ghost use Rattle.erm_rule.specs.Steps.{Fits};
ghost use Rattle.erm_rule.specs.Views.{view, part_of};
ghost use Rattle.erm_rule.specs.Books.{book};
ghost use Rattle.erm_ends.specs.Took.{TookInstalls, WasInstalled};

use erm_cells::store_head;
use erm_entries::install;
use erm_model::{RowLaw, Seat, Stamp};
use erm_precommit::KeptClaim;
use erm_readers::mark_overwritten;
use erm_rule::{Pass, Table};

// Installs the next claim: stores the words before the row into the own cell, marks the version overwritten, and installs the cell.
fn install_claim<L: RowLaw>(
    t: &Table<L>,
    p: &mut Pass,
    who: Seat,
    claim: KeptClaim,
    stamp: Stamp,
    succ: Stamp,
)
    requires fits { Fits t.now.words.shared.table_id p.old }
    requires known { IsKnown (view p.old) }
    requires next { IsNextCommit claim stamp succ (part_of (view p.old) who) }
    ensures fits { Fits t.now.words.shared.table_id p.new }
    ensures installed { DidInstallClaim (view p.old) who claim.oid claim.own (view p.new) }
    ensures was { WasInstalled L.law who (part_of (view p.old) who).current (next_install (part_of (view p.old) who)) (book p.old) (book p.new) }
{
    store_head(t, p, who, claim.own, stamp, Some(claim.overwritten));
    mark_overwritten(t, p, who, claim.overwritten, stamp, succ);
    install(t, p, who, claim.oid, claim.own);
}

/// Installs all claims, in order.
pub(crate) fn install_claims<L: RowLaw>(
    t: &Table<L>,
    p: &mut Pass,
    who: Seat,
    claims: &[KeptClaim],
    stamp: Stamp,
    succ: Stamp,
)
    requires fits { Fits t.now.words.shared.table_id p.old }
    requires known { IsKnown (view p.old) }
    requires may { MayInstallClaims claims.now stamp succ (part_of (view p.old) who) }
    ensures fits { Fits t.now.words.shared.table_id p.new }
    ensures installed { DidInstallClaims (view p.old) who (view p.new) }
    ensures took { TookInstalls L.law who (part_of (view p.old) who).current (book p.old) (book p.new) }
{
    for k in 0..claims.len() {
        install_claim(t, p, who, claims[k], stamp, succ);
    }
}
