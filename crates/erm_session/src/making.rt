//! A session's new objects, and its look at the place flushed.
ghost use Rattle.std.specs.Prelude.{◌≡◌, ◌<◌, IfErr, IfOk, OnOk, ◌≤◌, ℕ, [], ◌∷◌};
ghost use Rattle.erm_machine.specs.declared.limits.TheConstants.{OBJECT_LIMIT};
ghost use Rattle.erm_model.specs.declared.outcome.Phase.TheVariants as phase;
ghost use Rattle.erm_rule.specs.Books.{WasFlushed, book};
ghost use Rattle.erm_rule.specs.Hands.{IsKnown};
ghost use Rattle.erm_rule.specs.Steps.{Fits};
ghost use Rattle.erm_rule.specs.Views.{view, part_of};
ghost use Rattle.erm_session.specs.Making.{IsFlushedTo, LooksAtFlushed, MakesObject, RefusesObject};
ghost use Rattle.erm_session.specs.Saves.{saves_of};
ghost use Rattle.erm_session.specs.Saving.{StaySaved};
ghost use Rattle.erm_session.specs.Session.{IsSession, phase_of};
ghost use Rattle.erm_machine.specs.declared.event.Kind.TheVariants.{LoadFlushed};
ghost use Rattle.erm_rule.specs.Went.{IsStillStep, Took, Went};
ghost use Rattle.erm_session.specs.Took.{TookNoObject, TookObject};

use crate::session::Session;
use erm_cells::{add_counter, load_counter, load_flushed};
use erm_machine::{Counter, OBJECT_LIMIT};
use erm_model::{Oid, Receipt, RowLaw, RowStop};
use erm_rule::{Pass, Table};
use erm_world::NotFlushed;

impl Session {
    /// A new object, which nobody else gets. It is refused where all objects that there may be are drawn.
    pub fn fresh<L: RowLaw>(&mut self, t: &Table<L>, p: &mut Pass) -> Result<Oid, RowStop>
        requires fits { Fits t.now.words.shared.table_id p.old }
        requires stands { IsSession self.old (part_of (view p.old) self.old.seat) }
        requires active { phase_of self.old.stage ≡ phase.Active }
        ensures fits { Fits t.now.words.shared.table_id p.new }
        ensures known { IsKnown (view p.new) }
        ensures seat { self.new.seat ≡ self.old.seat }
        ensures stands { IsSession self.new (part_of (view p.new) self.old.seat) }
        ensures saves { StaySaved self.old (part_of (view p.old) self.old.seat) self.new (part_of (view p.new) self.old.seat) }
        ensures active { phase_of self.new.stage ≡ phase.Active }
        ensures object { IfOk result (λ oid. oid < OBJECT_LIMIT) }
        ensures made { IfOk result (λ oid. MakesObject (view p.old) self.old.seat oid (view p.new)) }
        ensures refused { IfErr result (λ stop. RefusesObject (view p.old) self.old.seat stop (view p.new)) }
        ensures took { IfOk result (λ oid. TookObject L.law self.old.seat oid (book p.old) (book p.new)) }
        ensures took_none { IfErr result (λ stop. TookNoObject L.law self.old.seat stop (book p.old) (book p.new)) }
        ensures still { Went L.law self.old.seat IsStillStep (book p.old) (book p.new) }
    {
        let seen = load_counter(t, p, self.seat, Counter::Objects);
        if seen >= u64::from(OBJECT_LIMIT) {
            return Err(RowStop::OidsFull { drawn: seen });
        }
        let found = add_counter(t, p, self.seat, Counter::Objects);
        if found >= u64::from(OBJECT_LIMIT) {
            return Err(RowStop::OidsFull { drawn: found });
        }
        Ok(found as Oid)
    }

    /// Whether a commit is on the disk: the place flushed lies behind its block, or at its end. From then on it stays so.
    pub fn durable<L: RowLaw>(
        &self,
        t: &Table<L>,
        p: &mut Pass,
        receipt: &Receipt,
    ) -> Result<(), NotFlushed>
        requires fits { Fits t.now.words.shared.table_id p.old }
        requires stands { IsSession self.now (part_of (view p.old) self.now.seat) }
        ensures fits { Fits t.now.words.shared.table_id p.new }
        ensures known { IsKnown (view p.new) }
        ensures stands { IsSession self.now (part_of (view p.new) self.now.seat) }
        ensures saves { saves_of self.now (part_of (view p.new) self.now.seat) ≡ saves_of self.now (part_of (view p.old) self.now.seat) }
        ensures looked { LooksAtFlushed (view p.old) self.now.seat (view p.new) }
        ensures synced { OnOk result (IsFlushedTo receipt.now.end (book p.new)) }
        ensures unsynced { IfErr result (λ stop. WasFlushed (book p.old) stop.flushed (book p.new) × (stop.flushed < receipt.now.end)) }
        ensures took { OnOk result ((flushed : ℕ) × (receipt.now.end ≤ flushed) × Took L.law self.now.seat ((LoadFlushed, flushed) ∷ []) (book p.old) (book p.new)) }
        ensures took_none { IfErr result (λ stop. Took L.law self.now.seat ((LoadFlushed, stop.flushed) ∷ []) (book p.old) (book p.new)) }
    {
        let flushed = load_flushed(t, p, self.seat);
        if receipt.end <= flushed {
            Ok(())
        } else {
            Err(NotFlushed { flushed })
        }
    }
}
