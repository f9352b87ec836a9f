//! Claims: those of a claim and of a tidy, and writes. None of them answers `Memory`.
ghost use Rattle.std.specs.Prelude.{◌≡◌, ◌≢◌, ◌<◌, ◌≤◌, ℕ, IfErr, IfOk, OnOk};
ghost use Rattle.erm_model.specs.declared.limits.TheConstants.{OID_LIMIT, TABLE_CELLS};
ghost use Rattle.erm_model.specs.declared.outcome.Phase.TheVariants.{Active};
ghost use Rattle.erm_model.specs.declared.row_stop.RowStop.TheVariants.{Memory};
ghost use Rattle.erm_rule.specs.Books.{book};
ghost use Rattle.erm_session.specs.Took.{TookAnyClaim, TookAnyTidy};
ghost use Rattle.erm_table_world.specs.Saves.{KeepsSaves};
ghost use Rattle.erm_table_world.specs.Stands.{Stands, table_view};
ghost use Rattle.erm_world.specs.Calls.{DidClaim, DidNotClaim, DidWrite};
ghost use Rattle.erm_world.specs.World.{IsSession, phase_at};

use crate::TableWorld;
use erm_model::{Oid, Row, RowLaw, RowStop, Seat};

impl<L: RowLaw> TableWorld<L> {
    /// Claims an object, below 2^14, for writing. Its row stays, and counts as written. One that is claimed stays so. It is refused,
    /// and the transaction ends, where another one in progress has claimed the object, where a newer version was committed, or where the
    /// exclusion window known so far is closed; it is refused, and the transaction goes on, where 128 objects are claimed, or where
    /// no cell is left. Versions of the object that nobody may read any more are cut off. It never answers `Memory`.
    pub fn claim(&mut self, seat: Seat, oid: Oid) -> Result<(), RowStop>
        requires stands { Stands L.law self.old }
        requires session { IsSession (table_view self.old) seat }
        requires active { phase_at (table_view self.old) seat ≡ Active }
        requires object { oid < OID_LIMIT }
        ensures stands { Stands L.law self.new }
        ensures saves { KeepsSaves self.old seat self.new }
        ensures ok { OnOk result (DidClaim (table_view self.old) seat oid (table_view self.new)) }
        ensures took { OnOk result ((cut : ℕ) × TookAnyClaim L.law seat oid cut (book self.old.pass) (book self.new.pass)) }
        ensures err { IfErr result (λ stop. DidNotClaim (table_view self.old) seat oid stop (table_view self.new)) }
        ensures memory { IfErr result (λ stop. stop ≢ Memory) }
    {
        match self.sessions[seat as usize - 1].claim(&self.table, &mut self.pass, oid) {
            Ok(_) => Ok(()),
            Err(why) => Err(why),
        }
    }

    /// Claims an object, below 2^14, where it isn't claimed yet, or is refused as a claim is, and cuts off versions of it that nobody may
    /// read any more: the count is how many these were, which is how many cells may be drawn anew.
    pub fn tidy(&mut self, seat: Seat, oid: Oid) -> Result<u32, RowStop>
        requires stands { Stands L.law self.old }
        requires session { IsSession (table_view self.old) seat }
        requires active { phase_at (table_view self.old) seat ≡ Active }
        requires object { oid < OID_LIMIT }
        ensures stands { Stands L.law self.new }
        ensures saves { KeepsSaves self.old seat self.new }
        ensures ok { OnOk result (DidClaim (table_view self.old) seat oid (table_view self.new)) }
        ensures count { IfOk result (λ cut. cut ≤ TABLE_CELLS) }
        ensures took { IfOk result (λ cut. TookAnyTidy L.law seat oid cut (book self.old.pass) (book self.new.pass)) }
        ensures err { IfErr result (λ stop. DidNotClaim (table_view self.old) seat oid stop (table_view self.new)) }
        ensures memory { IfErr result (λ stop. stop ≢ Memory) }
    {
        erm_cells::spare_lists_fit();
        self.sessions[seat as usize - 1].tidy(&self.table, &mut self.pass, oid)
    }

    /// Sets the row of an object, below 2^14, and claims it where it isn't claimed yet. For a claimed object the answer is `Ok`;
    /// another is refused as its claim is, and its row then stays.
    pub fn write(&mut self, seat: Seat, oid: Oid, row: &Row) -> Result<(), RowStop>
        requires stands { Stands L.law self.old }
        requires session { IsSession (table_view self.old) seat }
        requires active { phase_at (table_view self.old) seat ≡ Active }
        requires object { oid < OID_LIMIT }
        ensures stands { Stands L.law self.new }
        ensures saves { KeepsSaves self.old seat self.new }
        ensures ok { OnOk result (DidWrite (table_view self.old) seat oid row.now (table_view self.new)) }
        ensures err { IfErr result (λ stop. DidNotClaim (table_view self.old) seat oid stop (table_view self.new)) }
        ensures memory { IfErr result (λ stop. stop ≢ Memory) }
    {
        self.sessions[seat as usize - 1].write(&self.table, &mut self.pass, oid, row)
    }
}
