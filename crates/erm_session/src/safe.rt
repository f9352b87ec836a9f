//! Snapshots that only read: begun, looked at whether they are safe, read from, and ended.
ghost use Rattle.std.specs.Prelude.{◌≡◌, ◌<◌, IfErr, IfOk, OnOk};
ghost use Rattle.erm_cells.specs.Took.{IsEndStep};
ghost use Rattle.erm_ends.specs.Ends.{DidAbort};
ghost use Rattle.erm_ends.specs.Safe.{DidEndSafe, TookEndSafe};
ghost use Rattle.erm_machine.specs.declared.limits.TheConstants.{OBJECT_LIMIT};
ghost use Rattle.erm_machine.specs.declared.part.Part.{Part};
ghost use Rattle.erm_model.specs.declared.outcome.Phase.TheVariants as phase;
ghost use Rattle.erm_rows.specs.Safe.{DidReadSafe};
ghost use Rattle.erm_rule.specs.Books.{book};
ghost use Rattle.erm_rule.specs.Hands.{IsKnown};
ghost use Rattle.erm_rule.specs.Steps.{Fits};
ghost use Rattle.erm_rule.specs.Views.{view, part_of};
ghost use Rattle.erm_rule.specs.Went.{IsLoadStep, IsStillStep, Went};
ghost use Rattle.erm_seats.specs.Safe.{DidBeginSafe, DidSurvey, TookBeginSafe};
ghost use Rattle.erm_session.specs.Calls.{MayNotBegin};
ghost use Rattle.erm_session.specs.Safe.{DidNotSafe, IsSnapshotPhase, IsStoppedPhase, MayEndSafe, TookNoSafe, WasSafeStop};
ghost use Rattle.erm_session.specs.Session.{IsSession, phase_of};
ghost use Rattle.erm_session.specs.Took.{TookNoBegin};

use crate::life::begin_stop;
use crate::session::{Session, Stage};
use erm_machine::LAST_NUMBER;
use erm_model::{Oid, Row, RowLaw, Stamp};
use erm_rule::{Pass, Table};
use erm_seats::{answer, begin_safe_steps, survey};
use erm_world::{BeginStop, SafeStop};

impl Session {
    /// Begins a snapshot: the begin stamp, which is the end of the log, in words. It doesn't begin where a transaction wouldn't. It is pending
    /// until it is known to be safe.
    pub fn begin_safe<L: RowLaw>(&mut self, t: &Table<L>, p: &mut Pass) -> Result<Stamp, BeginStop>
        requires fits { Fits t.now.words.shared.table_id p.old }
        requires stands { IsSession self.old (part_of (view p.old) self.old.seat) }
        requires idle { phase_of self.old.stage ≡ phase.Idle }
        ensures fits { Fits t.now.words.shared.table_id p.new }
        ensures seat { self.new.seat ≡ self.old.seat }
        ensures stands { IsSession self.new (part_of (view p.new) self.old.seat) }
        ensures begun { IfOk result (λ begin. DidBeginSafe (view p.old) self.old.seat begin (view p.new)) }
        ensures pending { IfOk result (λ begin. phase_of self.new.stage ≡ phase.Pending) }
        ensures refused { IfErr result (λ stop. MayNotBegin (view p.old) self.old.seat stop (view p.new)) }
        ensures idle { IfErr result (λ stop. phase_of self.new.stage ≡ phase.Idle) }
        ensures took { IfOk result (λ begin. TookBeginSafe L.law self.old.seat begin (book p.old) (book p.new)) }
        ensures took_none { IfErr result (λ stop. TookNoBegin L.law self.old.seat stop (book p.old) (book p.new)) }
    {
        if self.number == LAST_NUMBER {
            return Err(BeginStop::NumbersEnd);
        }
        let begin = match begin_safe_steps(t, p, self.seat) {
            Ok(begin) => begin,
            Err(stop) => return Err(begin_stop(stop)),
        };
        self.number += 1;
        self.rows_read.clear();
        self.rows_claimed.clear();
        self.stage = Stage::Pending { begin, next: 1 };
        Ok(begin)
    }

    /// Looks whether the snapshot is safe, from the session on to which its look has come. Where it waits for that one it stays pending; where
    /// it isn't safe it is ended.
    pub fn safe<L: RowLaw>(&mut self, t: &Table<L>, p: &mut Pass) -> Result<(), SafeStop>
        requires fits { Fits t.now.words.shared.table_id p.old }
        requires known { IsKnown (view p.old) }
        requires stands { IsSession self.old (part_of (view p.old) self.old.seat) }
        requires pending { phase_of self.old.stage ≡ phase.Pending }
        ensures fits { Fits t.now.words.shared.table_id p.new }
        ensures known { IsKnown (view p.new) }
        ensures seat { self.new.seat ≡ self.old.seat }
        ensures stands { IsSession self.new (part_of (view p.new) self.old.seat) }
        ensures safe { OnOk result (DidSurvey (view p.old) self.old.seat (view p.new)) }
        ensures safe_phase { OnOk result (phase_of self.new.stage ≡ phase.Safe) }
        ensures loads { OnOk result (Went L.law self.old.seat IsLoadStep (book p.old) (book p.new)) }
        ensures refused { IfErr result (λ stop. DidNotSafe (view p.old) self.old.seat stop (view p.new)) }
        ensures phase { IfErr result (λ stop. IsStoppedPhase stop (phase_of self.new.stage)) }
        ensures met { IfErr result (λ stop. WasSafeStop (book p.old) stop (book p.new)) }
        ensures took_none { IfErr result (λ stop. TookNoSafe L.law self.old.seat stop (book p.old) (book p.new)) }
        ensures still { Went L.law self.old.seat IsStillStep (book p.old) (book p.new) }
    {
        let Stage::Pending { begin, next } = &self.stage else {
            unreachable!()
        };
        let (begin, next) = (*begin, *next);
        match survey(t, p, self.seat, next, begin) {
            Ok(()) => {
                self.stage = Stage::Safe { begin };
                Ok(())
            }
            Err(answer::SafeStop::NotYet { seat, seen }) => {
                self.stage = Stage::Pending { begin, next: seat };
                Err(SafeStop::NotYet { seat, seen })
            }
            Err(answer::SafeStop::Unsafe { seat, stamp }) => {
                self.leave_snapshot(t, p);
                Err(SafeStop::Unsafe { seat, stamp })
            }
        }
    }

    /// The begin stamp of its snapshot, safe or not.
    pub fn snapshot_begin(&self) -> Stamp
        requires snapshot { IsSnapshotPhase (phase_of self.now.stage) }
        ensures { (x : Part) → IsSession self.now x → result ≡ x.current.begin }
    {
        match &self.stage {
            Stage::Pending { begin, .. } => *begin,
            Stage::Safe { begin } => *begin,
            _ => unreachable!(),
        }
    }

    /// The row of an object as the safe snapshot sees it: the newest below its begin stamp. It is never refused.
    pub fn safe_read<L: RowLaw>(&self, t: &Table<L>, p: &mut Pass, oid: Oid) -> Row
        requires fits { Fits t.now.words.shared.table_id p.old }
        requires stands { IsSession self.now (part_of (view p.old) self.now.seat) }
        requires safe { phase_of self.now.stage ≡ phase.Safe }
        requires object { oid < OBJECT_LIMIT }
        ensures fits { Fits t.now.words.shared.table_id p.new }
        ensures known { IsKnown (view p.new) }
        ensures stands { IsSession self.now (part_of (view p.new) self.now.seat) }
        ensures read { DidReadSafe (book p.old) self.now.seat oid result (book p.new) }
        ensures loads { Went L.law self.now.seat IsLoadStep (book p.old) (book p.new) }
    {
        let Stage::Safe { begin } = &self.stage else {
            unreachable!()
        };
        erm_rows::safe_read(t, p, self.seat, oid, *begin)
    }

    /// Ends the snapshot, safe or not.
    pub fn end_safe<L: RowLaw>(&mut self, t: &Table<L>, p: &mut Pass)
        requires fits { Fits t.now.words.shared.table_id p.old }
        requires known { IsKnown (view p.old) }
        requires stands { IsSession self.old (part_of (view p.old) self.old.seat) }
        requires snapshot { IsSnapshotPhase (phase_of self.old.stage) }
        ensures fits { Fits t.now.words.shared.table_id p.new }
        ensures seat { self.new.seat ≡ self.old.seat }
        ensures stands { IsSession self.new (part_of (view p.new) self.old.seat) }
        ensures ended { DidEndSafe (view p.old) self.old.seat (view p.new) }
        ensures aborted { DidAbort (view p.old) self.old.seat (view p.new) }
        ensures idle { phase_of self.new.stage ≡ phase.Idle }
        ensures ends { Went L.law self.old.seat IsEndStep (book p.old) (book p.new) }
        ensures took { TookEndSafe L.law self.old.seat (book p.old) (book p.new) }
    {
        self.leave_snapshot(t, p);
    }

    // Ends the snapshot, wherever its look stands.
    fn leave_snapshot<L: RowLaw>(&mut self, t: &Table<L>, p: &mut Pass)
        requires fits { Fits t.now.words.shared.table_id p.old }
        requires known { IsKnown (view p.old) }
        requires may { MayEndSafe self.old (part_of (view p.old) self.old.seat) }
        ensures fits { Fits t.now.words.shared.table_id p.new }
        ensures seat { self.new.seat ≡ self.old.seat }
        ensures stands { IsSession self.new (part_of (view p.new) self.old.seat) }
        ensures ended { DidEndSafe (view p.old) self.old.seat (view p.new) }
        ensures aborted { DidAbort (view p.old) self.old.seat (view p.new) }
        ensures idle { phase_of self.new.stage ≡ phase.Idle }
        ensures ends { Went L.law self.old.seat IsEndStep (book p.old) (book p.new) }
        ensures took { TookEndSafe L.law self.old.seat (book p.old) (book p.new) }
    {
        erm_ends::end_safe(t, p, self.seat);
        self.stage = Stage::Idle;
    }
}
