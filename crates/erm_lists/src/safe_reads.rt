//! Reads of a safe snapshot: the newest version below its begin stamp is in the object's chain, whoever owns the entry.
ghost use Rattle.std.specs.Prelude.{◌≡◌, ◌<◌, None, true};
ghost use Rattle.erm_model.specs.declared.limits.TheConstants.{OID_LIMIT};
ghost use Rattle.erm_model.specs.declared.outcome.Phase.TheVariants.{Safe};
ghost use Rattle.erm_core.specs.Cores.{core_of};
ghost use Rattle.erm_lists.specs.Snapshots.{has_found, object_in_hand, row_found, version_found, walk_step, IsSafeReader, OnlyLooks};
ghost use Rattle.erm_lists.specs.Stands.{Stands, lists_view};
ghost use Rattle.erm_sound.specs.Kept.{SoundUnder};
ghost use Rattle.erm_world.specs.Safe.{DidSafeRead};
ghost use Rattle.erm_world.specs.World.{IsSession, phase_at};

use crate::Lists;
use crate::ends::no_version;
use crate::steps::found;
use erm_machine::{CellWord, Kind, Task, VersionAt};
use erm_model::{Oid, ROW_WORDS, Row, RowLaw, Seat};

// The next step of the walk to the version that a safe snapshot reads, if that isn't found yet.
fn next_walk_step(at: Task) -> Option<Kind>
    ensures { result ≡ walk_step at }
{
    match at {
        Task::SafeWalks { version } => Some(Kind::LoadCell {
            version,
            word: CellWord::Stamp,
        }),
        Task::SafePassed { version } => Some(Kind::LoadCell {
            version,
            word: CellWord::Link,
        }),
        _ => None,
    }
}

// The version that a safe snapshot has found.
fn version_found(at: Task) -> VersionAt
    ensures { result ≡ version_found at }
{
    match at {
        Task::SafeFound { version } => version,
        _ => no_version(),
    }
}

impl<L: RowLaw> Lists<L> {
    // Walks on to the newest version below the begin stamp.
    fn walk_safe(&mut self, seat: Seat)
        requires sound { SoundUnder L.law (core_of self.old.state) }
        requires reader { IsSafeReader seat (core_of self.old.state) }
        ensures sound { SoundUnder L.law (core_of self.new.state) }
        ensures sessions { self.new.sessions ≡ self.old.sessions }
        ensures looks { OnlyLooks seat (core_of self.old.state) (core_of self.new.state) }
        ensures reader { IsSafeReader seat (core_of self.new.state) }
        ensures object { object_in_hand ((core_of self.new.state).seats seat).task ≡ object_in_hand ((core_of self.old.state).seats seat).task }
        ensures done { walk_step ((core_of self.new.state).seats seat).task ≡ None }
    {
        while let Some(kind) = next_walk_step(self.task(seat)) {
            self.go(seat, kind);
        }
    }

    // Loads the row of the version found, word by word.
    fn load_row(&mut self, seat: Seat) -> Row
        requires sound { SoundUnder L.law (core_of self.old.state) }
        requires reader { IsSafeReader seat (core_of self.old.state) }
        requires found { has_found ((core_of self.old.state).seats seat).task ≡ true }
        ensures sound { SoundUnder L.law (core_of self.new.state) }
        ensures sessions { self.new.sessions ≡ self.old.sessions }
        ensures looks { OnlyLooks seat (core_of self.old.state) (core_of self.new.state) }
        ensures stays { ((core_of self.new.state).seats seat).task ≡ ((core_of self.old.state).seats seat).task }
        ensures row { result ≡ row_found (core_of self.old.state) seat }
    {
        let version = version_found(self.task(seat));
        let mut row = [0; ROW_WORDS];
        for k in 0..ROW_WORDS {
            let word = CellWord::Row(k as u8);
            row[k] = found(self.go(seat, Kind::LoadCell { version, word }));
        }
        row
    }

    /// The row of an object as the safe snapshot sees it: the newest below its begin stamp. It counts for nobody, and asks for no memory.
    pub fn safe_read(&mut self, seat: Seat, oid: Oid) -> Row
        requires stands { Stands L.law self.old }
        requires session { IsSession (lists_view self.old) seat }
        requires safe { phase_at (lists_view self.old) seat ≡ Safe }
        requires object { oid < OID_LIMIT }
        ensures stands { Stands L.law self.new }
        ensures same { lists_view self.new ≡ lists_view self.old }
        ensures row { DidSafeRead (lists_view self.old) seat oid result }
    {
        self.go(seat, Kind::LoadEntry { oid });
        self.walk_safe(seat);
        self.load_row(seat)
    }
}
