//! A transaction's begin, and its end by an abort.
ghost use Rattle.std.specs.Prelude.{◌≡◌, ℕ, true, false, [], IfErr, IfOk};
ghost use Rattle.erm_ends.specs.Ends.{DidAbort};
ghost use Rattle.erm_ends.specs.Took.{TookAbort};
ghost use Rattle.erm_model.specs.declared.outcome.Phase.TheVariants as phase;
ghost use Rattle.erm_rule.specs.declared.view.View.{View};
ghost use Rattle.erm_rule.specs.Books.{book};
ghost use Rattle.erm_rule.specs.Hands.{IsKnown};
ghost use Rattle.erm_rule.specs.Steps.{Fits};
ghost use Rattle.erm_rule.specs.Views.{view, part_of};
ghost use Rattle.erm_seats.specs.Calls.{DidBegin, DidStop};
ghost use Rattle.erm_session.specs.Calls.{IsRefusedPhase, MayNotBegin, is_end};
ghost use Rattle.erm_session.specs.Saves.{saves_of};
ghost use Rattle.erm_session.specs.Session.{IsKept, IsSession, phase_of};
ghost use Rattle.erm_cells.specs.Took.{IsEndStep};
ghost use Rattle.erm_rule.specs.Went.{Went};
ghost use Rattle.erm_seats.specs.Took.{TookBegin};
ghost use Rattle.erm_session.specs.Took.{stop_of, TookNoBegin};

use crate::room::Room;
use crate::session::{Session, Stage};
use erm_machine::LAST_NUMBER;
use erm_model::{RowLaw, RowStop, Stamp};
use erm_rule::{Pass, Table};
use erm_seats::{answer, begin_steps};
use erm_world::BeginStop;
use std::mem;

impl Session {
    /// Begins a transaction: the begin stamp, which is the end of the log, in words. It doesn't begin where the session has no number
    /// left, or where the log is at its end.
    pub fn begin<L: RowLaw>(&mut self, t: &Table<L>, p: &mut Pass) -> Result<Stamp, BeginStop>
        requires fits { Fits t.now.words.shared.table_id p.old }
        requires stands { IsSession self.old (part_of (view p.old) self.old.seat) }
        requires idle { phase_of self.old.stage ≡ phase.Idle }
        ensures fits { Fits t.now.words.shared.table_id p.new }
        ensures seat { self.new.seat ≡ self.old.seat }
        ensures stands { IsSession self.new (part_of (view p.new) self.old.seat) }
        ensures begun { IfOk result (λ begin. DidBegin (view p.old) self.old.seat begin (view p.new)) }
        ensures active { IfOk result (λ begin. phase_of self.new.stage ≡ phase.Active) }
        ensures unsaved { IfOk result (λ begin. saves_of self.new (part_of (view p.new) self.old.seat) ≡ []) }
        ensures refused { IfErr result (λ stop. MayNotBegin (view p.old) self.old.seat stop (view p.new)) }
        ensures idle { IfErr result (λ stop. phase_of self.new.stage ≡ phase.Idle) }
        ensures took { IfOk result (λ begin. TookBegin L.law self.old.seat begin (book p.old) (book p.new)) }
        ensures took_none { IfErr result (λ stop. TookNoBegin L.law self.old.seat stop (book p.old) (book p.new)) }
    {
        if self.number == LAST_NUMBER {
            return Err(BeginStop::NumbersEnd);
        }
        let begin = match begin_steps(t, p, self.seat) {
            Ok(begin) => begin,
            Err(stop) => return Err(begin_stop(stop)),
        };
        let Some(room) = self.room.take() else {
            unreachable!()
        };
        self.number += 1;
        self.rows_read.clear();
        self.rows_claimed.clear();
        self.saves.clear();
        self.stage = Stage::Active(room.begin(begin, self.number));
        Ok(begin)
    }

    /// Ends the active transaction: nothing that it wrote stays, and its cells are spare ones.
    pub fn abort<L: RowLaw>(&mut self, t: &Table<L>, p: &mut Pass)
        requires fits { Fits t.now.words.shared.table_id p.old }
        requires known { IsKnown (view p.old) }
        requires stands { IsSession self.old (part_of (view p.old) self.old.seat) }
        requires active { phase_of self.old.stage ≡ phase.Active }
        ensures fits { Fits t.now.words.shared.table_id p.new }
        ensures seat { self.new.seat ≡ self.old.seat }
        ensures stands { IsSession self.new (part_of (view p.new) self.old.seat) }
        ensures aborted { DidAbort (view p.old) self.old.seat (view p.new) }
        ensures idle { phase_of self.new.stage ≡ phase.Idle }
        ensures ends { Went L.law self.old.seat IsEndStep (book p.old) (book p.new) }
        ensures took { TookAbort L.law self.old.seat (book p.old) (book p.new) }
    {
        self.end(t, p);
    }

    // The same, where the rows kept aren't those of the transaction any more.
    fn end<L: RowLaw>(&mut self, t: &Table<L>, p: &mut Pass)
        requires fits { Fits t.now.words.shared.table_id p.old }
        requires known { IsKnown (view p.old) }
        requires kept { IsKept self.old (part_of (view p.old) self.old.seat) }
        requires active { phase_of self.old.stage ≡ phase.Active }
        ensures fits { Fits t.now.words.shared.table_id p.new }
        ensures seat { self.new.seat ≡ self.old.seat }
        ensures stands { IsSession self.new (part_of (view p.new) self.old.seat) }
        ensures aborted { DidAbort (view p.old) self.old.seat (view p.new) }
        ensures idle { phase_of self.new.stage ≡ phase.Idle }
        ensures ends { Went L.law self.old.seat IsEndStep (book p.old) (book p.new) }
        ensures took { TookAbort L.law self.old.seat (book p.old) (book p.new) }
    {
        let Stage::Active(txn) = mem::replace(&mut self.stage, Stage::Idle) else {
            unreachable!()
        };
        let reads = txn.reads.as_slice();
        let claims = txn.claims.as_slice();
        erm_ends::abort(t, p, self.seat, &mut self.spare, reads, claims);
        self.rows_read.clear();
        self.rows_claimed.clear();
        self.room = Some(Room {
            reads: txn.reads,
            claims: txn.claims,
        });
    }

    /// Ends the active transaction where it may not go on after this refusal.
    pub(crate) fn end_where<L: RowLaw>(&mut self, t: &Table<L>, p: &mut Pass, why: RowStop)
        requires fits { Fits t.now.words.shared.table_id p.old }
        requires known { IsKnown (view p.old) }
        requires kept { IsKept self.old (part_of (view p.old) self.old.seat) }
        requires active { phase_of self.old.stage ≡ phase.Active }
        requires stands { is_end why ≡ false → IsSession self.old (part_of (view p.old) self.old.seat) }
        ensures fits { Fits t.now.words.shared.table_id p.new }
        ensures seat { self.new.seat ≡ self.old.seat }
        ensures stands { IsSession self.new (part_of (view p.new) self.old.seat) }
        ensures ended { is_end why ≡ true → DidAbort (view p.old) self.old.seat (view p.new) }
        ensures stays { is_end why ≡ false → view p.new ≡ view p.old }
        ensures same { is_end why ≡ false → book p.new ≡ book p.old }
        ensures left { is_end why ≡ false → self.new ≡ self.old }
        ensures phase { IsRefusedPhase why (phase_of self.new.stage) }
        ensures ends { is_end why ≡ true → Went L.law self.old.seat IsEndStep (book p.old) (book p.new) }
        ensures took { is_end why ≡ true → TookAbort L.law self.old.seat (book p.old) (book p.new) }
    {
        if is_end(why) {
            self.end(t, p);
        }
    }
}

// Why a transaction doesn't begin, as a begin answers it.
pub(crate) fn begin_stop(stop: answer::BeginStop) -> BeginStop
    ensures refused { (v w : View) (who : ℕ) → DidStop v who stop w → MayNotBegin v who result w }
    ensures is { result ≡ stop_of stop }
{
    let answer::BeginStop::LogEnd { tail } = stop;
    BeginStop::LogEnd { tail }
}

// Whether a transaction may not go on after this refusal.
fn is_end(why: RowStop) -> bool
    ensures { result ≡ is_end why }
{
    match why {
        RowStop::Owned { .. } | RowStop::Newer { .. } | RowStop::Excluded { .. } => true,
        _ => false,
    }
}
