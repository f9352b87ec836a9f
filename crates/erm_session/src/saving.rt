//! A session's savepoints, and its way back to them.
ghost use Rattle.std.specs.Prelude.{◌≡◌, ◌-◌, ◌<◌, ℕ, [], length, slice_index_or, take, IfErr, IfOk, OnOk, None};
ghost use Rattle.erm_machine.specs.declared.part.Part.{Part};
ghost use Rattle.erm_model.specs.declared.outcome.Phase.TheVariants.{Active};
ghost use Rattle.erm_rule.specs.Books.{book};
ghost use Rattle.erm_rule.specs.Hands.{IsKnown};
ghost use Rattle.erm_rule.specs.Steps.{Fits};
ghost use Rattle.erm_rule.specs.Views.{view, part_of};
ghost use Rattle.erm_rule.specs.Went.{Went};
ghost use Rattle.erm_model.specs.declared.limits.TheConstants.{SAVES};
ghost use Rattle.erm_savepoints.specs.Saves.{row_saved};
ghost use Rattle.erm_session.specs.Saves.{saves_of};
ghost use Rattle.erm_session.specs.Saving.{AddsSave, ClaimGoesBack, GoesBack, IsBackStep, IsNoSave, TookBack, TookClaimBack, TookUnset};
ghost use Rattle.erm_session.specs.Session.{IsSession, phase_of};
ghost use Rattle.erm_world.specs.declared.stops.SaveStop.TheVariants.{SavesFull};

use crate::session::Session;
use erm_model::{RowLaw, SAVES};
use erm_rule::{Pass, Table, unset};
use erm_world::{NoSave, SaveStop};

impl Session {
    /// Saves the rows of the active transaction's claims as they are, as one savepoint more: how many it holds then. They end with the
    /// transaction. No step on a word is taken.
    pub fn save(&mut self) -> Result<u32, SaveStop>
        requires stands { (x : Part) × IsSession self.old x }
        requires active { phase_of self.old.stage ≡ Active }
        ensures seat { self.new.seat ≡ self.old.seat }
        ensures stands { (x : Part) → IsSession self.old x → IsSession self.new x }
        ensures active { phase_of self.new.stage ≡ Active }
        ensures saved { IfOk result (λ held. AddsSave self.old held self.new) }
        ensures full { IfErr result (λ stop. (stop ≡ SavesFull SAVES) × (length self.old.saves.points ≡ SAVES)) }
        ensures same { IfErr result (λ stop. self.new ≡ self.old) }
    {
        let held = self.saves.held();
        if held == SAVES as u32 {
            return Err(SaveStop::SavesFull { held });
        }
        self.saves.save(self.rows_claimed.as_slice());
        Ok(self.saves.held())
    }

    /// Goes back to the savepoint of this number, from 1: each row claimed since is the one that its claim found, and no write has set it;
    /// each one claimed before is as it was then. The savepoints made since are gone, and this one stays. Words of own cells alone are
    /// stored. No claim is given up, and what was read or made stays so.
    pub fn back<L: RowLaw>(&mut self, t: &Table<L>, p: &mut Pass, n: u32) -> Result<(), NoSave>
        requires fits { Fits t.now.words.shared.table_id p.old }
        requires known { IsKnown (view p.old) }
        requires stands { IsSession self.old (part_of (view p.old) self.old.seat) }
        requires active { phase_of self.old.stage ≡ Active }
        ensures fits { Fits t.now.words.shared.table_id p.new }
        ensures known { IsKnown (view p.new) }
        ensures seat { self.new.seat ≡ self.old.seat }
        ensures stands { IsSession self.new (part_of (view p.new) self.old.seat) }
        ensures active { phase_of self.new.stage ≡ Active }
        ensures within { OnOk result ((n - 1 < length self.old.saves.points) × (0 < n)) }
        ensures back { OnOk result (GoesBack (view p.old) self.old.seat (slice_index_or self.old.saves.points (n - 1) []) (view p.new)) }
        ensures saves { OnOk result (saves_of self.new (part_of (view p.new) self.old.seat) ≡ take n (saves_of self.old (part_of (view p.old) self.old.seat))) }
        ensures none { IfErr result (λ stop. IsNoSave self.old n stop.held) }
        ensures same { IfErr result (λ stop. (self.new ≡ self.old) × (view p.new ≡ view p.old) × (book p.new ≡ book p.old)) }
        ensures took { OnOk result (TookBack L.law self.old.seat (slice_index_or self.old.saves.points (n - 1) []) (book p.old) (book p.new)) }
        ensures goes { Went L.law self.old.seat IsBackStep (book p.old) (book p.new) }
    {
        let held = self.saves.held();
        if n == 0 || n > held {
            return Err(NoSave { held });
        }
        for place in 0..self.rows_claimed.len() {
            self.claim_back(t, p, n as usize - 1, place);
        }
        self.saves.cut(n as usize);
        Ok(())
    }

    // The claim at a place goes back to a savepoint, whose place among those held is this.
    fn claim_back<L: RowLaw>(&mut self, t: &Table<L>, p: &mut Pass, point: usize, place: usize)
        requires fits { Fits t.now.words.shared.table_id p.old }
        requires known { IsKnown (view p.old) }
        requires stands { IsSession self.old (part_of (view p.old) self.old.seat) }
        requires active { phase_of self.old.stage ≡ Active }
        requires point { point < length self.old.saves.points }
        requires place { place < length (part_of (view p.old) self.old.seat).current.writes }
        ensures fits { Fits t.now.words.shared.table_id p.new }
        ensures seat { self.new.seat ≡ self.old.seat }
        ensures stands { IsSession self.new (part_of (view p.new) self.old.seat) }
        ensures active { phase_of self.new.stage ≡ Active }
        ensures points { self.new.saves.points ≡ self.old.saves.points }
        ensures back { ClaimGoesBack (view p.old) self.old.seat place (row_saved (slice_index_or self.old.saves.points point []) place) (view p.new) }
        ensures took { TookClaimBack L.law self.old.seat place (row_saved (slice_index_or self.old.saves.points point []) place)
            (slice_index_or self.old.saves.found place []) (book p.old) (book p.new) }
    {
        match self.saves.row_at(point, place) {
            Some(row) => self.set_row(t, p, place, &row),
            None => self.unset_row(t, p, place),
        }
    }

    // The claim at a place has the row that it found again, and no write has set it.
    fn unset_row<L: RowLaw>(&mut self, t: &Table<L>, p: &mut Pass, place: usize)
        requires fits { Fits t.now.words.shared.table_id p.old }
        requires known { IsKnown (view p.old) }
        requires stands { IsSession self.old (part_of (view p.old) self.old.seat) }
        requires active { phase_of self.old.stage ≡ Active }
        requires place { place < length (part_of (view p.old) self.old.seat).current.writes }
        ensures fits { Fits t.now.words.shared.table_id p.new }
        ensures seat { self.new.seat ≡ self.old.seat }
        ensures stands { IsSession self.new (part_of (view p.new) self.old.seat) }
        ensures active { phase_of self.new.stage ≡ Active }
        ensures points { self.new.saves.points ≡ self.old.saves.points }
        ensures back { ClaimGoesBack (view p.old) self.old.seat place None (view p.new) }
        ensures took { TookUnset L.law self.old.seat place (slice_index_or self.old.saves.found place []) (book p.old) (book p.new) }
    {
        let who = self.seat;
        let row = self.saves.found(place);
        self.set_row(t, p, place, &row);
        unset(t, p, who, place);
        self.saves.mark(place, false);
    }
}
