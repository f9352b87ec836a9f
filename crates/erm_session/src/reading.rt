//! A session's read.
ghost use Rattle.std.specs.Prelude.{◌≡◌, ◌<◌, true, IfErr, IfOk};
ghost use Rattle.erm_machine.specs.declared.limits.TheConstants.{OBJECT_LIMIT};
ghost use Rattle.erm_machine.specs.Words.{is_session};
ghost use Rattle.erm_model.specs.declared.outcome.Phase.TheVariants.{Active};
ghost use Rattle.erm_rows.specs.Reads.{DidNotRead, DidRead, WasOwnerMet};
ghost use Rattle.erm_rule.specs.Books.{book};
ghost use Rattle.erm_rule.specs.Hands.{IsKnown};
ghost use Rattle.erm_rule.specs.Steps.{Fits};
ghost use Rattle.erm_rule.specs.Views.{view, part_of};
ghost use Rattle.erm_session.specs.Calls.{IsRefusedPhase, IsUnclaimed, IsUnread, ReadsRow, RefusesRead};
ghost use Rattle.erm_session.specs.Saving.{StaySaved};
ghost use Rattle.erm_session.specs.Session.{IsOpen, IsSession, StageIs, phase_of};
ghost use Rattle.erm_rows.specs.Took.{TookNotRead, TookRead};
ghost use Rattle.erm_rule.specs.Went.{IsStillStep, Went};
ghost use Rattle.erm_session.specs.Took.{TookAnyRead, TookReadStop};

use crate::finding::{find_claim, find_read};
use crate::session::{Session, Stage};
use erm_model::{Oid, Row, RowLaw, RowStop, Seat};
use erm_rule::{Pass, Table};

// Reads an object that the active transaction has neither claimed nor read.
fn read_first<L: RowLaw>(
    stage: &mut Stage,
    t: &Table<L>,
    p: &mut Pass,
    who: Seat,
    oid: Oid,
) -> Result<Row, RowStop>
    requires fits { Fits t.now.words.shared.table_id p.old }
    requires session { is_session who ≡ true }
    requires stands { StageIs stage.old (part_of (view p.old) who) }
    requires active { phase_of stage.old ≡ Active }
    requires object { oid < OBJECT_LIMIT }
    requires unread { IsUnread (part_of (view p.old) who) oid }
    requires unclaimed { IsUnclaimed (part_of (view p.old) who) oid }
    ensures fits { Fits t.now.words.shared.table_id p.new }
    ensures stands { StageIs stage.new (part_of (view p.new) who) }
    ensures active { phase_of stage.new ≡ Active }
    ensures window { IfOk result (λ row. IsOpen stage.new (part_of (view p.new) who)) }
    ensures read { IfOk result (λ row. DidRead (view p.old) who oid row (view p.new)) }
    ensures refused { IfErr result (λ stop. DidNotRead (view p.old) who oid stop (view p.new)) }
    ensures met { IfErr result (λ stop. WasOwnerMet (book p.old) stop (book p.new)) }
    ensures took { IfOk result (λ row. TookRead L.law who oid (book p.old) (book p.new)) }
    ensures took_none { IfErr result (λ stop. TookNotRead L.law who oid stop (book p.old) (book p.new)) }
    ensures still { Went L.law who IsStillStep (book p.old) (book p.new) }
{
    match stage {
        Stage::Active(txn) => erm_rows::read(txn, t, p, who, oid),
        _ => unreachable!(),
    }
}

impl Session {
    /// The row of an object as the transaction sees it: its own where it is claimed, the one read before where it was read, and else the
    /// newest below the begin stamp, which then counts as read. A read is refused where the object's owner isn't clear for the begin
    /// stamp, and where as many objects are read as may be; where the exclusion window known so far is closed, the transaction is aborted.
    pub fn read<L: RowLaw>(&mut self, t: &Table<L>, p: &mut Pass, oid: Oid) -> Result<Row, RowStop>
        requires fits { Fits t.now.words.shared.table_id p.old }
        requires known { IsKnown (view p.old) }
        requires stands { IsSession self.old (part_of (view p.old) self.old.seat) }
        requires active { phase_of self.old.stage ≡ Active }
        requires object { oid < OBJECT_LIMIT }
        ensures fits { Fits t.now.words.shared.table_id p.new }
        ensures known { IsKnown (view p.new) }
        ensures seat { self.new.seat ≡ self.old.seat }
        ensures stands { IsSession self.new (part_of (view p.new) self.old.seat) }
        ensures saves { StaySaved self.old (part_of (view p.old) self.old.seat) self.new (part_of (view p.new) self.old.seat) }
        ensures read { IfOk result (λ row. ReadsRow (view p.old) self.old.seat oid row (view p.new)) }
        ensures active { IfOk result (λ row. phase_of self.new.stage ≡ Active) }
        ensures refused { IfErr result (λ stop. RefusesRead (view p.old) self.old.seat oid stop (view p.new)) }
        ensures phase { IfErr result (λ stop. IsRefusedPhase stop (phase_of self.new.stage)) }
        ensures met { IfErr result (λ stop. WasOwnerMet (book p.old) stop (book p.new)) }
        ensures took { IfOk result (λ row. TookAnyRead L.law self.old.seat oid (book p.old) (book p.new)) }
        ensures took_none { IfErr result (λ stop. TookReadStop L.law self.old.seat oid stop (book p.old) (book p.new)) }
        ensures still { Went L.law self.old.seat IsStillStep (book p.old) (book p.new) }
    {
        let Stage::Active(txn) = &self.stage else {
            unreachable!()
        };
        if let Some(place) = find_claim(txn.claims.as_slice(), oid) {
            return Ok(self.rows_claimed[place]);
        }
        if let Some(place) = find_read(txn.reads.as_slice(), oid) {
            return Ok(self.rows_read[place]);
        }
        match read_first(&mut self.stage, t, p, self.seat, oid) {
            Ok(row) => {
                self.rows_read.push_reserved(row);
                Ok(row)
            }
            Err(why) => {
                self.end_where(t, p, why);
                Err(why)
            }
        }
    }
}
