//! A pin of the log's end, as of which a flusher reads rows.
ghost use Rattle.std.specs.Prelude.{◌≡◌, ◌≤◌, IsSome, None, Some};
ghost use Rattle.erm_lists.specs.Logs.{KeepsSessions, lists_log};
ghost use Rattle.erm_lists.specs.Stands.{Stands};

use crate::Lists;
use crate::steps::found;
use erm_machine::{FLUSH_SEAT, Kind, Place, TailUse};
use erm_model::{RowLaw, Stamp};

impl<L: RowLaw> Lists<L> {
    /// The place that is pinned, in words, if there is one.
    pub fn pinned(&self) -> Option<Stamp>
        ensures { result ≡ (lists_log self.now).pinned }
    {
        let x = self.state.seat(FLUSH_SEAT);
        match x.place {
            Place::Active { .. } => Some(x.current.begin),
            _ => None,
        }
    }

    /// Pins the log's end: rows may be read as of it until it is unpinned.
    pub fn pin(&mut self) -> Stamp
        requires stands { Stands L.law self.old }
        requires unpinned { (lists_log self.old).pinned ≡ None }
        ensures stands { Stands L.law self.new }
        ensures keeps { KeepsSessions L.law self.old self.new }
        ensures place { (lists_log self.old).tail ≤ result }
        ensures pinned { lists_log self.new ≡ record (lists_log self.old) { tail = result; pinned = Some result } }
    {
        let begins = Kind::LoadTail {
            purpose: TailUse::Begin,
        };
        erm_core::rooms_serve();
        let tail = found(self.take(FLUSH_SEAT, begins));
        self.go(FLUSH_SEAT, Kind::StoreBegin { value: tail });
        found(self.take(FLUSH_SEAT, begins))
    }

    /// Ends the pin.
    pub fn unpin(&mut self)
        requires stands { Stands L.law self.old }
        requires pinned { IsSome (lists_log self.old).pinned }
        ensures stands { Stands L.law self.new }
        ensures keeps { KeepsSessions L.law self.old self.new }
        ensures unpinned { lists_log self.new ≡ record (lists_log self.old) { pinned = None } }
    {
        self.go(FLUSH_SEAT, Kind::StoreBegin { value: 0 });
    }
}
