//! The versions that a sealed transaction read and overwrote, passed one after another before it is decided.
ghost use Rattle.std.specs.Prelude.{◌≡◌, IfErr, MatchOption, OnOk, Some, true};
ghost use Rattle.erm_core.specs.Cores.{core_of};
ghost use Rattle.erm_kept.specs.Attempts.{attempt_of};
ghost use Rattle.erm_machine.specs.declared.event.Kind.TheVariants as kind;
ghost use Rattle.erm_machine.specs.declared.task.Task.TheVariants as task_specs;
ghost use Rattle.erm_sound.specs.Kept.{SoundUnder};
ghost use Rattle.erm_machine.specs.Words.{is_session};
ghost use Rattle.erm_core_steps.specs.Settles.{AreAllBehind, HasPassed, IsClearFor, IsPassing, IsWaiting, PassesBy, StopsAt, is_passing};
ghost use Rattle.erm_core_steps.specs.Steps.{IsUnseen};

use crate::Lists;
use crate::steps::found;
use erm_kept::AttemptState;
use erm_kept::words::is_clear;
use erm_machine::{CellWord, Kind, Task, VersionAt};
use erm_model::{RowLaw, Seat};
use erm_world::Wait;

// Loads a stamp of a version.
fn load_stamp(version: VersionAt, word: CellWord) -> Option<Kind>
    ensures { result ≡ Some (kind.LoadStamp version word) }
{
    Some(Kind::LoadStamp { version, word })
}

// Where settle goes on between two versions: to the next one read, then to the next one overwritten.
fn next_version(t: &AttemptState, reads: usize, writes: usize) -> Option<Kind>
    ensures { MatchOption result
        (AreAllBehind (attempt_of t.now) (task_specs.Settles reads writes))
        (PassesBy (attempt_of t.now) (task_specs.Settles reads writes)) }
{
    if reads < t.reads.len() {
        let oid = t.read_at(reads).version.oid;
        return Some(Kind::LoadEntry { oid });
    }
    if writes < t.writes.len() {
        let version = t.claim_at(writes).version;
        return Some(Kind::LoadReaders { version });
    }
    None
}

// The next step of a settle that passes versions, or none where all are passed.
fn next_pass(t: &AttemptState, task: Task) -> Option<Kind>
    requires passing { is_passing task ≡ true }
    ensures { MatchOption result (AreAllBehind (attempt_of t.now) task) (PassesBy (attempt_of t.now) task) }
{
    match task {
        Task::Settles { reads, writes } => next_version(t, reads, writes),
        Task::ReadOwned { owner, .. } => Some(Kind::LoadState {
            seat: owner,
            bound: t.stamp,
        }),
        Task::ReadClear { read } => load_stamp(t.read_at(read).version, CellWord::Overwriter),
        Task::ReadOvertaken { read, .. } => {
            load_stamp(t.read_at(read).version, CellWord::OverwriterSucc)
        }
        Task::ReadersLeft { bits, .. } => Some(Kind::LoadState {
            seat: bits.trailing_zeros() as Seat,
            bound: t.stamp,
        }),
        Task::WriteClear { write } => load_stamp(t.claim_at(write).version, CellWord::Stamp),
        Task::WriteMade { write } => load_stamp(t.claim_at(write).version, CellWord::ReaderStamp),
        _ => None,
    }
}

// Whom a step has found that isn't clear.
fn waits(kind: Kind, seen: u64) -> Option<Wait>
    ensures { MatchOption result (IsClearFor kind seen) (StopsAt kind seen) }
{
    match kind {
        Kind::LoadState { seat, bound } => {
            if is_clear(seen, bound) {
                None
            } else {
                Some(Wait::Seat { seat, seen })
            }
        }
        _ => None,
    }
}

impl<L: RowLaw> Lists<L> {
    // The next step of the seat's settle that passes versions, or none where all are passed.
    fn next_look(&self, seat: Seat) -> Option<Kind>
        requires session { is_session seat ≡ true }
        requires passing { is_passing ((core_of self.now.state).seats seat).task ≡ true }
        ensures { MatchOption result
            (AreAllBehind ((core_of self.now.state).seats seat).current ((core_of self.now.state).seats seat).task)
            (PassesBy ((core_of self.now.state).seats seat).current ((core_of self.now.state).seats seat).task) }
    {
        let x = self.state.seat(seat);
        next_pass(&x.current, x.task)
    }

    // Passes the versions read, and then those overwritten, up to the first one that isn't ready.
    pub(crate) fn pass_versions(&mut self, seat: Seat) -> Result<(), Wait>
        requires sound { SoundUnder L.law (core_of self.old.state) }
        requires session { is_session seat ≡ true }
        requires passing { IsPassing (core_of self.old.state).shared ((core_of self.old.state).seats seat) }
        ensures sound { SoundUnder L.law (core_of self.new.state) }
        ensures passing { IsPassing (core_of self.new.state).shared ((core_of self.new.state).seats seat) }
        ensures unseen { IsUnseen self.old.sessions seat (core_of self.old.state) (core_of self.new.state) }
        ensures sessions { self.new.sessions ≡ self.old.sessions }
        ensures size { ((core_of self.new.state).seats seat).current.size ≡ ((core_of self.old.state).seats seat).current.size }
        ensures passed { OnOk result (HasPassed ((core_of self.new.state).seats seat)) }
        ensures waits { IfErr result (IsWaiting (core_of self.new.state) seat) }
    {
        while let Some(kind) = self.next_look(seat) {
            let word = found(self.go(seat, kind));
            if let Some(wait) = waits(kind, word) {
                return Err(wait);
            }
        }
        Ok(())
    }
}
