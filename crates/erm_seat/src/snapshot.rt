//! Steps of a snapshot that looks whether it is safe.
ghost use Rattle.std.specs.Prelude.{ℕ, ◌≡◌, ◌≢◌, ◌<◌, ◌≤◌, if◌then◌else◌, false, true, Some, None};
ghost use Rattle.erm_machine.specs.Life as life_specs;
ghost use Rattle.erm_machine.specs.Seat as seat_specs;
ghost use Rattle.erm_machine.specs.declared.limits.TheConstants.{SESSIONS};
ghost use Rattle.erm_machine.specs.declared.place.Place.TheVariants.{Active};
ghost use Rattle.erm_kept.specs.Tasks.{IsFresh};
ghost use Rattle.erm_seat.specs.Needs.{surveyed};
ghost use Rattle.erm_seat.specs.Parts.{part_of};
ghost use Rattle.erm_seat.specs.Rooms.{no_growth, GoesOn};

use crate::SeatState;
use erm_kept::words::{is_active, is_rest, is_session};
use erm_machine::{Place, SESSIONS, Task};
use erm_model::{Seat, Stamp};

// A snapshot goes on after a session that is passed.
fn after_passed(next: Seat) -> Task
    requires { next ≤ SESSIONS }
    ensures task { result ≡ life_specs.after_passed next }
    ensures fresh { IsFresh result }
    ensures survey { surveyed result ≤ SESSIONS }
{
    if next == SESSIONS {
        Task::Safe
    } else {
        Task::Surveys { next: next + 1 }
    }
}

/// A snapshot with this begin stamp goes on after the begin word of a session.
pub fn after_survey(seat: Seat, begin: Stamp, found: Stamp, next: Seat) -> Task
    requires { next ≤ SESSIONS }
    ensures task { result ≡ life_specs.after_survey seat begin found next }
    ensures fresh { IsFresh result }
    ensures survey { surveyed result ≤ SESSIONS }
{
    if next == seat {
        after_passed(next)
    } else if found == 0 || begin <= found {
        Task::Behind { next }
    } else {
        Task::Surveys { next }
    }
}

impl SeatState {
    /// A transaction that has done nothing becomes a snapshot: its begin word is raised to its begin stamp.
    pub(crate) fn raise_begin(&mut self, seat: Seat, value: Stamp) -> bool
        requires active { seat_specs.is_active self.old.place ≡ true }
        ensures turn { (tail : ℕ) → value ≢ 0 → life_specs.store_begin seat value (part_of self.old) (Active tail) ≡ (if result then Some (part_of self.new) else None) }
        ensures kept { result ≡ false → part_of self.new ≡ part_of self.old }
        ensures room { GoesOn no_growth self.old self.new }
    {
        if !is_session(seat) || value != self.current.begin {
            return false;
        }
        if !self.current.is_new() || !is_rest(self.task) {
            return false;
        }
        self.place = Place::Active { tail: value };
        self.task = Task::Surveys { next: 1 };
        true
    }

    /// Loads a session's back word.
    pub(crate) fn load_back(&mut self, other: Seat, found: Stamp) -> bool
        ensures turn { life_specs.load_back other found (part_of self.old) self.old.task ≡ (if result then Some (part_of self.new) else None) }
        ensures kept { result ≡ false → part_of self.new ≡ part_of self.old }
        ensures room { GoesOn no_growth self.old self.new }
    {
        let Task::Behind { next } = self.task else {
            return false;
        };
        if !is_active(self.place) || other != next {
            return false;
        }
        self.task = if found < self.current.begin {
            after_passed(next)
        } else {
            Task::Behind { next }
        };
        true
    }
}
