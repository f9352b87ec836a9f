//! A session's claim and write.
ghost use Rattle.std.specs.Prelude.{◌≡◌, ◌<◌, ℕ, true, Some, IfErr, IfOk, OnOk};
ghost use Rattle.erm_cells.specs.Spare.{SpareIs};
ghost use Rattle.erm_machine.specs.declared.limits.TheConstants.{OBJECT_LIMIT};
ghost use Rattle.erm_machine.specs.Words.{is_session};
ghost use Rattle.erm_model.specs.declared.outcome.Phase.TheVariants.{Active};
ghost use Rattle.erm_rows.specs.Claims.{DidClaim, DidNotClaim, TellsCount};
ghost use Rattle.erm_rule.specs.Books.{book};
ghost use Rattle.erm_rule.specs.Hands.{IsKnown};
ghost use Rattle.erm_rule.specs.Steps.{Fits};
ghost use Rattle.erm_rule.specs.Views.{view, part_of};
ghost use Rattle.erm_session.specs.Calls.{ClaimsObject, IsClaimedAt, IsRefusedPhase, IsUnclaimed, RefusesClaim, SetsRow, WritesRow};
ghost use Rattle.erm_session.specs.Saving.{ClaimGoesBack, StaySaved};
ghost use Rattle.erm_session.specs.Session.{IsOpen, IsSession, StageIs, phase_of};
ghost use Rattle.erm_cells.specs.Placed.{place_of};
ghost use Rattle.erm_cells.specs.Took.{TookRow};
ghost use Rattle.erm_rows.specs.Took.{TookClaim, TookNoClaim};
ghost use Rattle.erm_rule.specs.Went.{IsStillStep, Went};
ghost use Rattle.erm_session.specs.Took.{TookAnyClaim, TookClaimStop, TookWrite};

use crate::finding::find_claim;
use crate::session::{Session, Stage};
use erm_cells::{Spare, store_row};
use erm_model::{Oid, Row, RowLaw, RowStop, Seat};
use erm_rows::Claimed;
use erm_rule::{Pass, Table};

// Claims an object that the active transaction hasn't claimed.
fn claim_first<L: RowLaw>(
    stage: &mut Stage,
    spare: &mut Spare,
    t: &Table<L>,
    p: &mut Pass,
    who: Seat,
    oid: Oid,
) -> Result<Claimed, RowStop>
    requires fits { Fits t.now.words.shared.table_id p.old }
    requires session { is_session who ≡ true }
    requires stands { StageIs stage.old (part_of (view p.old) who) }
    requires active { phase_of stage.old ≡ Active }
    requires spare { SpareIs spare.old (part_of (view p.old) who) }
    requires object { oid < OBJECT_LIMIT }
    requires unclaimed { IsUnclaimed (part_of (view p.old) who) oid }
    ensures fits { Fits t.now.words.shared.table_id p.new }
    ensures stands { StageIs stage.new (part_of (view p.new) who) }
    ensures active { phase_of stage.new ≡ Active }
    ensures spare { SpareIs spare.new (part_of (view p.new) who) }
    ensures window { IfOk result (λ claimed. IsOpen stage.new (part_of (view p.new) who)) }
    ensures claimed { IfOk result (λ claimed. DidClaim (view p.old) who oid claimed.row (view p.new)) }
    ensures refused { IfErr result (λ stop. DidNotClaim (view p.old) who oid stop (view p.new)) }
    ensures counted { IfErr result (λ stop. TellsCount (book p.old) stop (book p.new)) }
    ensures took { IfOk result (λ claimed. TookClaim L.law who oid claimed.cut (book p.old) (book p.new)) }
    ensures took_none { IfErr result (λ stop. TookNoClaim L.law who oid stop (book p.old) (book p.new)) }
    ensures still { Went L.law who IsStillStep (book p.old) (book p.new) }
{
    match stage {
        Stage::Active(txn) => erm_rows::claim(txn, spare, t, p, who, oid),
        _ => unreachable!(),
    }
}

impl Session {
    // Claims an object, if it isn't claimed yet. The answer is the place of the claim, and how many cells its cut made spare ones.
    fn claim_at<L: RowLaw>(
        &mut self,
        t: &Table<L>,
        p: &mut Pass,
        oid: Oid,
    ) -> Result<(usize, u32), RowStop>
        requires fits { Fits t.now.words.shared.table_id p.old }
        requires known { IsKnown (view p.old) }
        requires stands { IsSession self.old (part_of (view p.old) self.old.seat) }
        requires active { phase_of self.old.stage ≡ Active }
        requires object { oid < OBJECT_LIMIT }
        ensures fits { Fits t.now.words.shared.table_id p.new }
        ensures known { IsKnown (view p.new) }
        ensures seat { self.new.seat ≡ self.old.seat }
        ensures stands { IsSession self.new (part_of (view p.new) self.old.seat) }
        ensures saves { StaySaved self.old (part_of (view p.old) self.old.seat) self.new (part_of (view p.new) self.old.seat) }
        ensures claimed { OnOk result (ClaimsObject (view p.old) self.old.seat oid (view p.new)) }
        ensures place { IfOk result (λ claimed. IsClaimedAt (part_of (view p.new) self.old.seat) oid claimed.0) }
        ensures active { OnOk result (phase_of self.new.stage ≡ Active) }
        ensures refused { IfErr result (λ stop. RefusesClaim (view p.old) self.old.seat oid stop (view p.new)) }
        ensures phase { IfErr result (λ stop. IsRefusedPhase stop (phase_of self.new.stage)) }
        ensures counted { IfErr result (λ stop. TellsCount (book p.old) stop (book p.new)) }
        ensures took { IfOk result (λ claimed. TookAnyClaim L.law self.old.seat oid claimed.1 (book p.old) (book p.new)) }
        ensures took_none { IfErr result (λ stop. TookClaimStop L.law self.old.seat oid stop (book p.old) (book p.new)) }
        ensures still { Went L.law self.old.seat IsStillStep (book p.old) (book p.new) }
    {
        let Stage::Active(txn) = &self.stage else {
            unreachable!()
        };
        if let Some(place) = find_claim(txn.claims.as_slice(), oid) {
            return Ok((place, 0));
        }
        match claim_first(&mut self.stage, &mut self.spare, t, p, self.seat, oid) {
            Ok(claimed) => {
                let row = claimed.row;
                self.rows_claimed.push_reserved(row);
                self.saves.claim(row);
                Ok((self.rows_claimed.len() - 1, claimed.cut))
            }
            Err(why) => {
                self.end_where(t, p, why);
                Err(why)
            }
        }
    }

    /// Claims an object for writing, if it isn't claimed yet. Its row stays, and counts as written. A claim is refused where as many
    /// objects are claimed as may be and where no cell is left; where another transaction owns the object, where a newer version was
    /// committed, and where the exclusion window known so far is closed, the transaction is aborted. The answer is how many cells this call's
    /// cut made spare ones: those of the versions behind the newest one that any seat may still read.
    pub fn claim<L: RowLaw>(&mut self, t: &Table<L>, p: &mut Pass, oid: Oid) -> Result<u32, RowStop>
        requires fits { Fits t.now.words.shared.table_id p.old }
        requires known { IsKnown (view p.old) }
        requires stands { IsSession self.old (part_of (view p.old) self.old.seat) }
        requires active { phase_of self.old.stage ≡ Active }
        requires object { oid < OBJECT_LIMIT }
        ensures fits { Fits t.now.words.shared.table_id p.new }
        ensures known { IsKnown (view p.new) }
        ensures seat { self.new.seat ≡ self.old.seat }
        ensures stands { IsSession self.new (part_of (view p.new) self.old.seat) }
        ensures saves { StaySaved self.old (part_of (view p.old) self.old.seat) self.new (part_of (view p.new) self.old.seat) }
        ensures claimed { OnOk result (ClaimsObject (view p.old) self.old.seat oid (view p.new)) }
        ensures active { OnOk result (phase_of self.new.stage ≡ Active) }
        ensures refused { IfErr result (λ stop. RefusesClaim (view p.old) self.old.seat oid stop (view p.new)) }
        ensures phase { IfErr result (λ stop. IsRefusedPhase stop (phase_of self.new.stage)) }
        ensures counted { IfErr result (λ stop. TellsCount (book p.old) stop (book p.new)) }
        ensures took { IfOk result (λ cut. TookAnyClaim L.law self.old.seat oid cut (book p.old) (book p.new)) }
        ensures took_none { IfErr result (λ stop. TookClaimStop L.law self.old.seat oid stop (book p.old) (book p.new)) }
        ensures still { Went L.law self.old.seat IsStillStep (book p.old) (book p.new) }
    {
        let (_, cut) = self.claim_at(t, p, oid)?;
        Ok(cut)
    }

    // Sets the row of the object claimed at a place.
    pub(crate) fn set_row<L: RowLaw>(&mut self, t: &Table<L>, p: &mut Pass, place: usize, row: &Row)
        requires fits { Fits t.now.words.shared.table_id p.old }
        requires known { IsKnown (view p.old) }
        requires stands { IsSession self.old (part_of (view p.old) self.old.seat) }
        requires active { phase_of self.old.stage ≡ Active }
        requires place { (oid : ℕ) × IsClaimedAt (part_of (view p.old) self.old.seat) oid place }
        ensures fits { Fits t.now.words.shared.table_id p.new }
        ensures seat { self.new.seat ≡ self.old.seat }
        ensures stands { IsSession self.new (part_of (view p.new) self.old.seat) }
        ensures saves { StaySaved self.old (part_of (view p.old) self.old.seat) self.new (part_of (view p.new) self.old.seat) }
        ensures set { SetsRow (view p.old) self.old.seat place row.now (view p.new) }
        ensures active { phase_of self.new.stage ≡ Active }
        ensures back { ClaimGoesBack (view p.old) self.old.seat place (Some row.now) (view p.new) }
        ensures points { self.new.saves.points ≡ self.old.saves.points }
        ensures found { self.new.saves.found ≡ self.old.saves.found }
        ensures stores { (cell : ℕ) × (place_of cell (part_of (view p.old) self.old.seat) ≡ place) × TookRow L.law self.old.seat cell row.now (book p.old) (book p.new) }
    {
        let Stage::Active(txn) = &self.stage else {
            unreachable!()
        };
        let own = txn.claims[place].own;
        store_row(t, p, self.seat, own, row);
        self.rows_claimed[place] = *row;
        self.saves.mark(place, true);
    }

    /// Sets the row of an object, and claims it where it isn't claimed yet. For a claimed object the answer is `Ok`.
    pub fn write<L: RowLaw>(
        &mut self,
        t: &Table<L>,
        p: &mut Pass,
        oid: Oid,
        row: &Row,
    ) -> Result<(), RowStop>
        requires fits { Fits t.now.words.shared.table_id p.old }
        requires known { IsKnown (view p.old) }
        requires stands { IsSession self.old (part_of (view p.old) self.old.seat) }
        requires active { phase_of self.old.stage ≡ Active }
        requires object { oid < OBJECT_LIMIT }
        ensures fits { Fits t.now.words.shared.table_id p.new }
        ensures known { IsKnown (view p.new) }
        ensures seat { self.new.seat ≡ self.old.seat }
        ensures stands { IsSession self.new (part_of (view p.new) self.old.seat) }
        ensures saves { StaySaved self.old (part_of (view p.old) self.old.seat) self.new (part_of (view p.new) self.old.seat) }
        ensures written { OnOk result (WritesRow (view p.old) self.old.seat oid row.now (view p.new)) }
        ensures active { OnOk result (phase_of self.new.stage ≡ Active) }
        ensures refused { IfErr result (λ stop. RefusesClaim (view p.old) self.old.seat oid stop (view p.new)) }
        ensures phase { IfErr result (λ stop. IsRefusedPhase stop (phase_of self.new.stage)) }
        ensures counted { IfErr result (λ stop. TellsCount (book p.old) stop (book p.new)) }
        ensures took { OnOk result (TookWrite L.law self.old.seat oid row.now (book p.old) (book p.new)) }
        ensures took_none { IfErr result (λ stop. TookClaimStop L.law self.old.seat oid stop (book p.old) (book p.new)) }
        ensures still { Went L.law self.old.seat IsStillStep (book p.old) (book p.new) }
    {
        let (place, _) = self.claim_at(t, p, oid)?;
        self.set_row(t, p, place, row);
        Ok(())
    }
}
