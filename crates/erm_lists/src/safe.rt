//! Snapshots that only read: their begin, the survey of the other sessions, and their end.
ghost use Rattle.std.specs.Prelude.{◌≡◌, IfErr, IfOk, OnOk};
ghost use Rattle.erm_model.specs.declared.outcome.Phase.TheVariants as phase;
ghost use Rattle.erm_machine.specs.declared.task.Task.TheVariants as task_specs;
ghost use Rattle.erm_core.specs.Cores.{core_of};
ghost use Rattle.erm_lists.specs.Snapshots.{PassesOn, is_late, next_session};
ghost use Rattle.erm_lists.specs.Stands.{Stands, lists_view};
ghost use Rattle.erm_world.specs.Calls.{DidAbort, MayNotBegin};
ghost use Rattle.erm_world.specs.Safe.{DidBeginSafe, DidNotSafe, DidSafe, HasSnapshot};
ghost use Rattle.erm_world.specs.World.{IsSession, phase_at, work_at};

use crate::Lists;
use crate::steps::found;
use erm_machine::{Kind, Task};
use erm_model::{RowLaw, Seat, Stamp};
use erm_world::{BeginStop, SafeStop};

// The session that a pending snapshot has come to.
fn next_session(at: Task) -> Option<Seat>
    ensures { result ≡ next_session at }
{
    match at {
        Task::Surveys { next } => Some(next),
        _ => None,
    }
}

// Whether a session with this begin word has nothing in progress that had begun below the begin stamp.
fn is_late(begin: Stamp, seen: Stamp) -> bool
    ensures { result ≡ is_late begin seen }
{
    seen == 0 || begin <= seen
}

impl<L: RowLaw> Lists<L> {
    /// Begins a snapshot: a transaction begins, and its begin word is raised to its begin stamp. It is refused as a begin is.
    pub fn begin_safe(&mut self, seat: Seat) -> Result<Stamp, BeginStop>
        requires stands { Stands L.law self.old }
        requires session { IsSession (lists_view self.old) seat }
        requires idle { phase_at (lists_view self.old) seat ≡ phase.Idle }
        ensures stands { Stands L.law self.new }
        ensures ok { IfOk result (λ begin. DidBeginSafe (lists_view self.old) seat begin (lists_view self.new)) }
        ensures err { IfErr result (λ stop. MayNotBegin (lists_view self.old) seat stop (lists_view self.new)) }
    {
        let begin = self.begin(seat)?;
        self.go(seat, Kind::StoreBegin { value: begin });
        Ok(begin)
    }

    // Looks at the session that the survey has come to. Its begin word comes first, and then its back word: a transaction that had begun
    // below the begin stamp is in progress still, or has stored its stamp.
    fn pass_session(&mut self, seat: Seat, next: Seat) -> Result<(), SafeStop>
        requires stands { Stands L.law self.old }
        requires session { IsSession (lists_view self.old) seat }
        requires at { ((core_of self.old.state).seats seat).task ≡ task_specs.Surveys next }
        ensures stands { Stands L.law self.new }
        ensures sessions { self.new.sessions ≡ self.old.sessions }
        ensures ok { OnOk result (PassesOn seat next (core_of self.old.state) (core_of self.new.state)) }
        ensures err { IfErr result (λ stop. DidNotSafe (lists_view self.old) seat stop (lists_view self.new)) }
    {
        let begin = self.begin_stamp(seat);
        let seen = found(self.go(seat, Kind::LoadBegin { seat: next }));
        if next == seat {
            return Ok(());
        }
        if !is_late(begin, seen) {
            return Err(SafeStop::NotYet { seat: next, seen });
        }
        let stamp = found(self.go(seat, Kind::LoadBack { seat: next }));
        if stamp < begin {
            return Ok(());
        }
        self.go(seat, Kind::StoreBegin { value: 0 });
        Err(SafeStop::Unsafe { seat: next, stamp })
    }

    /// Looks whether the snapshot is safe: goes over the sessions that it hasn't passed yet. One that is waited for is looked at again by
    /// the next call.
    pub fn safe(&mut self, seat: Seat) -> Result<(), SafeStop>
        requires stands { Stands L.law self.old }
        requires session { IsSession (lists_view self.old) seat }
        requires pending { phase_at (lists_view self.old) seat ≡ phase.Pending }
        ensures stands { Stands L.law self.new }
        ensures ok { OnOk result (DidSafe (lists_view self.old) seat (lists_view self.new)) }
        ensures err { IfErr result (λ stop. DidNotSafe (lists_view self.old) seat stop (lists_view self.new)) }
    {
        while let Some(next) = next_session(self.task(seat)) {
            self.pass_session(seat, next)?;
        }
        Ok(())
    }

    /// The begin stamp of the snapshot, safe or not.
    pub fn snapshot_begin(&self, seat: Seat) -> Stamp
        requires stands { Stands L.law self.now }
        requires session { IsSession (lists_view self.now) seat }
        requires snapshot { HasSnapshot (lists_view self.now) seat }
        ensures { result ≡ (work_at (lists_view self.now) seat).begin }
    {
        self.begin_stamp(seat)
    }

    /// Ends the snapshot, safe or not.
    pub fn end_safe(&mut self, seat: Seat)
        requires stands { Stands L.law self.old }
        requires session { IsSession (lists_view self.old) seat }
        requires snapshot { HasSnapshot (lists_view self.old) seat }
        ensures stands { Stands L.law self.new }
        ensures ended { DidAbort (lists_view self.old) seat (lists_view self.new) }
    {
        self.go(seat, Kind::StoreBegin { value: 0 });
    }
}
