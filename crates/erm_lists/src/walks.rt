//! The way to a version of an object: its entry is loaded, its owner looked at, and its chain walked.
ghost use Rattle.std.specs.Prelude.{◌≡◌, ◌<◌, IfErr, OnErr, OnOk, None, Some, length, true};
ghost use Rattle.erm_machine.specs.Core.{spot_of, word_at};
ghost use Rattle.erm_machine.specs.Seat.{may_start};
ghost use Rattle.erm_sound.specs.Kept.{SoundUnder};
ghost use Rattle.erm_machine.specs.Step as step_specs;
ghost use Rattle.erm_machine.specs.Words.{is_session};
ghost use Rattle.erm_machine.specs.declared.task.Task.TheVariants as task;
ghost use Rattle.erm_model.specs.declared.limits.TheConstants.{OID_LIMIT, READ_LIMIT};
ghost use Rattle.erm_model.specs.declared.outcome.Phase.TheVariants as phase;
ghost use Rattle.erm_core.specs.Cores.{core_of};
ghost use Rattle.erm_core_steps.specs.Reads.{finds, in_hand, read_step, stage_of, GoesOn, IsAtWork, IsLoad, IsWaiting};
ghost use Rattle.erm_lists.specs.Rooms.{KeepsRoom};
ghost use Rattle.erm_lists.specs.Stands.{Stands, lists_view};
ghost use Rattle.erm_core_steps.specs.Steps.{IsTaken};
ghost use Rattle.erm_world.specs.Calls.{DidNotRead, IsNew};
ghost use Rattle.erm_world.specs.World.{IsSession, phase_at, work_at};

use crate::Lists;
use crate::ends::no_version;
use crate::steps::found;
use erm_kept::words::is_clear;
use erm_machine::{Answer, CellWord, Kind, Task, VersionAt};
use erm_model::{Oid, RowLaw, RowStop, Seat, Stamp};

// The next step of a read that is at this task, if it has one before its version is found, or rated.
fn next_read_step(at: Task) -> Option<Kind>
    ensures { result ≡ read_step at }
{
    match at {
        Task::Walks { version, .. } => Some(Kind::LoadCell {
            version,
            word: CellWord::Stamp,
        }),
        Task::Passed { version } => Some(Kind::LoadCell {
            version,
            word: CellWord::Link,
        }),
        Task::Registered { version } => Some(Kind::LoadStamp {
            version,
            word: CellWord::Overwriter,
        }),
        Task::Overtaken { version, .. } => Some(Kind::LoadStamp {
            version,
            word: CellWord::OverwriterSucc,
        }),
        _ => None,
    }
}

// The version that a read at this task has in hand.
fn version_in_hand(at: Task) -> VersionAt
    ensures { result ≡ in_hand at }
{
    match at {
        Task::Walks { version, .. }
        | Task::Passed { version }
        | Task::Found { version, .. }
        | Task::Registered { version }
        | Task::Overtaken { version, .. }
        | Task::Rated { version } => version,
        _ => no_version(),
    }
}

impl<L: RowLaw> Lists<L> {
    // How far the seat has come in its call.
    pub(crate) fn task(&self, seat: Seat) -> Task
        requires session { is_session seat ≡ true }
        ensures { result ≡ ((core_of self.now.state).seats seat).task }
    {
        self.state.seat(seat).task
    }

    // The begin stamp of the seat's transaction.
    pub(crate) fn begin_stamp(&self, seat: Seat) -> Stamp
        requires session { is_session seat ≡ true }
        ensures { result ≡ ((core_of self.now.state).seats seat).current.begin }
    {
        self.state.seat(seat).current.begin
    }

    // The version that the seat's read has in hand.
    pub(crate) fn version(&self, seat: Seat) -> VersionAt
        requires session { is_session seat ≡ true }
        ensures { result ≡ in_hand ((core_of self.now.state).seats seat).task }
    {
        version_in_hand(self.task(seat))
    }

    // Takes a step that loads a word: it doesn't show, and room that was made lasts.
    pub(crate) fn load(&mut self, seat: Seat, kind: Kind) -> Answer
        requires sound { SoundUnder L.law (core_of self.old.state) }
        requires at { IsAtWork seat (core_of self.old.state) }
        requires loads { IsLoad kind }
        requires taken { IsTaken (core_of self.old.state) seat kind }
        ensures sound { SoundUnder L.law (core_of self.new.state) }
        ensures after { step_specs.after_event (core_of self.old.state) seat kind ≡ Some (core_of self.new.state) }
        ensures answer { result ≡ step_specs.told kind (word_at (core_of self.old.state) (spot_of seat kind)) }
        ensures sessions { self.new.sessions ≡ self.old.sessions }
        ensures goes { GoesOn self.old.sessions seat (core_of self.old.state) (core_of self.new.state) }
        ensures room { KeepsRoom self.old.state self.new.state seat }
    {
        erm_core::rooms_last();
        self.go(seat, kind)
    }

    // Goes on until the version is found, or the one registered is rated.
    pub(crate) fn go_on(&mut self, seat: Seat)
        requires sound { SoundUnder L.law (core_of self.old.state) }
        requires at { IsAtWork seat (core_of self.old.state) }
        ensures sound { SoundUnder L.law (core_of self.new.state) }
        ensures sessions { self.new.sessions ≡ self.old.sessions }
        ensures goes { GoesOn self.old.sessions seat (core_of self.old.state) (core_of self.new.state) }
        ensures room { KeepsRoom self.old.state self.new.state seat }
        ensures stage { stage_of ((core_of self.new.state).seats seat).task ≡ stage_of ((core_of self.old.state).seats seat).task }
        ensures done { read_step ((core_of self.new.state).seats seat).task ≡ None }
    {
        while let Some(kind) = next_read_step(self.task(seat)) {
            self.load(seat, kind);
        }
    }

    // Looks at the owner of an object's entry: where that one is clear, the walk from the head begins.
    fn pass_owner(&mut self, seat: Seat, oid: Oid, owner: Seat) -> Result<(), RowStop>
        requires sound { SoundUnder L.law (core_of self.old.state) }
        requires at { IsAtWork seat (core_of self.old.state) }
        requires owned { ((core_of self.old.state).seats seat).task ≡ task.Owned oid owner }
        ensures sound { SoundUnder L.law (core_of self.new.state) }
        ensures sessions { self.new.sessions ≡ self.old.sessions }
        ensures goes { GoesOn self.old.sessions seat (core_of self.old.state) (core_of self.new.state) }
        ensures room { KeepsRoom self.old.state self.new.state seat }
        ensures ok { OnOk result (stage_of ((core_of self.new.state).seats seat).task ≡ finds oid) }
        ensures err { IfErr result (IsWaiting (core_of self.old.state) seat owner) }
        ensures starts { OnErr result (may_start ((core_of self.new.state).seats seat).task ≡ true) }
    {
        let bound = self.begin_stamp(seat);
        let seen = found(self.load(seat, Kind::LoadState { seat: owner, bound }));
        if !is_clear(seen, bound) {
            return Err(RowStop::NotYet { seat: owner, seen });
        }
        self.load(seat, Kind::LoadEntry { oid });
        Ok(())
    }

    // Comes to the head of an object that the transaction hasn't claimed, where no other transaction that is sealed below its begin
    // stamp has.
    pub(crate) fn arrive(&mut self, seat: Seat, oid: Oid) -> Result<(), RowStop>
        requires stands { Stands L.law self.old }
        requires session { IsSession (lists_view self.old) seat }
        requires active { phase_at (lists_view self.old) seat ≡ phase.Active }
        requires object { oid < OID_LIMIT }
        requires new { IsNew (work_at (lists_view self.old) seat) oid }
        requires few { length (work_at (lists_view self.old) seat).reads < READ_LIMIT }
        ensures sound { SoundUnder L.law (core_of self.new.state) }
        ensures sessions { self.new.sessions ≡ self.old.sessions }
        ensures goes { GoesOn self.old.sessions seat (core_of self.old.state) (core_of self.new.state) }
        ensures room { KeepsRoom self.old.state self.new.state seat }
        ensures ok { OnOk result (stage_of ((core_of self.new.state).seats seat).task ≡ finds oid) }
        ensures err { IfErr result (λ why. DidNotRead (lists_view self.old) seat oid why (lists_view self.new)) }
        ensures starts { OnErr result (may_start ((core_of self.new.state).seats seat).task ≡ true) }
    {
        self.load(seat, Kind::LoadEntry { oid });
        match self.task(seat) {
            Task::Owned { owner, .. } => self.pass_owner(seat, oid, owner),
            _ => Ok(()),
        }
    }
}
