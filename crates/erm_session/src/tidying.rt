//! A session's cut of an object's chain.
ghost use Rattle.std.specs.Prelude.{◌≡◌, ◌<◌, IfErr, IfOk, OnOk};
ghost use Rattle.erm_machine.specs.declared.limits.TheConstants.{OBJECT_LIMIT};
ghost use Rattle.erm_model.specs.declared.outcome.Phase.TheVariants.{Active};
ghost use Rattle.erm_rows.specs.Claims.{TellsCount};
ghost use Rattle.erm_rule.specs.Books.{book};
ghost use Rattle.erm_rule.specs.Hands.{IsKnown};
ghost use Rattle.erm_rule.specs.Steps.{Fits};
ghost use Rattle.erm_rule.specs.Views.{view, part_of};
ghost use Rattle.erm_rule.specs.Went.{IsStillStep, Went};
ghost use Rattle.erm_session.specs.Calls.{IsRefusedPhase, RefusesClaim, TidiesObject};
ghost use Rattle.erm_session.specs.Saving.{StaySaved};
ghost use Rattle.erm_session.specs.Session.{IsSession, phase_of};
ghost use Rattle.erm_session.specs.Took.{TookAnyTidy, TookClaimStop};

use crate::finding::find_claim;
use crate::session::{Session, Stage};
use erm_model::{Oid, RowLaw, RowStop};
use erm_rows::tidy_claimed;
use erm_rule::{Pass, Table};

impl Session {
    /// Claims an object where it isn't claimed yet, and cuts off versions of it that nobody may read any more. The answer is how many cells
    /// this call's cut made spare ones.
    pub fn tidy<L: RowLaw>(&mut self, t: &Table<L>, p: &mut Pass, oid: Oid) -> Result<u32, RowStop>
        requires fits { Fits t.now.words.shared.table_id p.old }
        requires known { IsKnown (view p.old) }
        requires stands { IsSession self.old (part_of (view p.old) self.old.seat) }
        requires active { phase_of self.old.stage ≡ Active }
        requires object { oid < OBJECT_LIMIT }
        ensures fits { Fits t.now.words.shared.table_id p.new }
        ensures known { IsKnown (view p.new) }
        ensures seat { self.new.seat ≡ self.old.seat }
        ensures stands { IsSession self.new (part_of (view p.new) self.old.seat) }
        ensures saves { StaySaved self.old (part_of (view p.old) self.old.seat) self.new (part_of (view p.new) self.old.seat) }
        ensures tidied { IfOk result (λ cut. TidiesObject (view p.old) self.old.seat oid cut (view p.new)) }
        ensures active { OnOk result (phase_of self.new.stage ≡ Active) }
        ensures refused { IfErr result (λ stop. RefusesClaim (view p.old) self.old.seat oid stop (view p.new)) }
        ensures phase { IfErr result (λ stop. IsRefusedPhase stop (phase_of self.new.stage)) }
        ensures counted { IfErr result (λ stop. TellsCount (book p.old) stop (book p.new)) }
        ensures took { IfOk result (λ cut. TookAnyTidy L.law self.old.seat oid cut (book p.old) (book p.new)) }
        ensures took_none { IfErr result (λ stop. TookClaimStop L.law self.old.seat oid stop (book p.old) (book p.new)) }
        ensures still { Went L.law self.old.seat IsStillStep (book p.old) (book p.new) }
    {
        let Stage::Active(txn) = &self.stage else {
            unreachable!()
        };
        match find_claim(txn.claims.as_slice(), oid) {
            Some(_) => Ok(tidy_claimed(&mut self.spare, t, p, self.seat, oid)),
            None => self.claim(t, p, oid),
        }
    }
}
