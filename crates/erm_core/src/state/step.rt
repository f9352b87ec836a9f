//! The step of the machine.
ghost use Rattle.std.specs.Prelude.{◌≡◌, ◌+◌, ◌<◌, ◌≤◌, if◌then◌else◌, Some, None, false, true};
ghost use Rattle.erm_machine.specs.declared.limits.TheConstants.{ANNOUNCERS, OBJECT_LIMIT};
ghost use Rattle.erm_machine.specs.declared.event.Event.{Event};
ghost use Rattle.erm_machine.specs.declared.event.Kind.TheVariants.{Split, Join};
ghost use Rattle.erm_machine.specs.declared.event.Answer.{Answer};
ghost use Rattle.erm_machine.specs.Core.{Core};
ghost use Rattle.erm_machine.specs.Sound.{Sound};
ghost use Rattle.erm_machine.specs.Step as step_specs;
ghost use Rattle.erm_machine.specs.Words.{put};
ghost use Rattle.erm_core.specs.Cores.{core_of, shared_of, added_in};
ghost use Rattle.erm_core.specs.Kinds.{MeetsOne, event_at};
ghost use Rattle.erm_core.specs.Seats.{promised_in, SeatsLeave};
ghost use Rattle.erm_seat.specs.Kinds.{cells_in, object_in};
ghost use Rattle.erm_core.specs.Rooms.{ranges_in, HasRoom, LeavesRoom, SeatHasRoom};

use super::State;
use super::change::object_of_kind;
use erm_kept::words::{is_seat, is_session};
use erm_machine::{ANNOUNCERS, Answer, CellWord, Event, Kind, OBJECT_LIMIT, Place, Version};
use erm_model::{ROW_WORDS, Seat, Stamp};

// Whether a cell has this word.
fn has_word(word: CellWord) -> bool
    ensures { result ≡ step_specs.has_word word }
{
    match word {
        CellWord::Row(k) => (k as usize) < ROW_WORDS,
        _ => true,
    }
}

// Whether the object that a kind names is one below the limit, the seat that is looked at has words, or a back word, and so has a cell.
fn is_known(kind: Kind) -> bool
    ensures known { result ≡ step_specs.is_known kind }
    ensures object { result ≡ true → object_in kind < OBJECT_LIMIT }
{
    match kind {
        Kind::LoadState { seat, .. } => is_seat(seat),
        Kind::LoadBack { seat } => is_session(seat),
        Kind::LoadCell { version, word } => version.oid < OBJECT_LIMIT && has_word(word),
        _ => object_of_kind(kind) < OBJECT_LIMIT,
    }
}

// What a step of this kind answers where its guard is met.
fn told(kind: Kind, found: u64) -> Answer
    ensures { result ≡ step_specs.told kind found }
{
    match kind {
        Kind::LoadTail { .. }
        | Kind::AddTail { .. }
        | Kind::LoadBegin { .. }
        | Kind::LoadState { .. }
        | Kind::LoadEntry { .. }
        | Kind::Claim { .. }
        | Kind::LoadCell { .. }
        | Kind::LoadCounter { .. }
        | Kind::AddCounter { .. }
        | Kind::LoadReaders { .. }
        | Kind::LoadStamp { .. }
        | Kind::LoadRing { .. }
        | Kind::LoadFlushed
        | Kind::SwapLink { .. }
        | Kind::LoadDetached { .. }
        | Kind::LoadBack { .. } => Answer::Word(found),
        _ => Answer::Done,
    }
}

impl State {
    // The seat takes its step, where its guard is met.
    fn turn(&mut self, seat: Seat, kind: Kind, found: u64) -> bool
        requires seat { seat < ANNOUNCERS }
        requires known { object_in kind < OBJECT_LIMIT }
        requires room { SeatHasRoom self.old seat kind }
        ensures after { step_specs.part_after seat kind found (shared_of self.old) ((core_of self.old).seats seat) ≡ (if result then Some ((core_of self.new).seats seat) else None) }
        ensures seats { result ≡ true → (core_of self.new).seats ≡ put (core_of self.old).seats seat ((core_of self.new).seats seat) }
        ensures kept { result ≡ false → (core_of self.new).seats ≡ (core_of self.old).seats }
        ensures shared { shared_of self.new ≡ shared_of self.old }
        ensures log { self.new.log ≡ self.old.log }
        ensures objects { self.new.objects ≡ self.old.objects }
        ensures promised { promised_in self.new.seats.items + (if result then ranges_in kind else 0) ≤ promised_in self.old.seats.items }
        ensures left { SeatsLeave kind (cells_in kind ((shared_of self.old).objects (object_in kind))) result seat self.old.seats.items self.new.seats.items }
    {
        let oid = object_of_kind(kind) as usize;
        self.seats[seat as usize].turn(seat, kind, found, &self.objects[oid], self.cell_limit)
    }
}

impl State {
    // A step that meets one word, or a device, where an install adds this version.
    fn step_adding(&mut self, seat: Seat, kind: Kind, added: &Option<Version>) -> Answer
        requires one { MeetsOne kind }
        requires seat { seat < ANNOUNCERS }
        requires room { HasRoom self.old seat kind }
        requires sound { Sound (core_of self.old) }
        requires added { added.now ≡ added_in kind ((core_of self.old).seats seat) }
        ensures step { ◌≡◌ {A = Answer × Core} (result, core_of self.new) (step_specs.core_step (core_of self.old) (event_at seat kind)) }
        ensures left { LeavesRoom self.old self.new seat kind }
    {
        if !is_known(kind) {
            return Answer::Failed;
        }
        let found = self.word(seat, kind);
        if !self.turn(seat, kind, found) {
            return Answer::Failed;
        }
        self.change(seat, kind, found, added);
        told(kind, found)
    }

    // A step that meets one word, or a device.
    fn step_word(&mut self, seat: Seat, kind: Kind) -> Answer
        requires one { MeetsOne kind }
        requires seat { seat < ANNOUNCERS }
        requires room { HasRoom self.old seat kind }
        requires sound { Sound (core_of self.old) }
        ensures step { ◌≡◌ {A = Answer × Core} (result, core_of self.new) (step_specs.core_step (core_of self.old) (event_at seat kind)) }
        ensures left { LeavesRoom self.old self.new seat kind }
    {
        match kind {
            Kind::Install { head, .. } => {
                let added = self.seats[seat as usize].added(head);
                self.step_adding(seat, kind, &added)
            }
            _ => self.step_adding(seat, kind, &None),
        }
    }

    // A vacant seat is taken.
    fn split(&mut self, seat: Seat, other: Seat) -> Answer
        requires seat { seat < ANNOUNCERS }
        ensures step { ◌≡◌ {A = Answer × Core} (result, core_of self.new) (step_specs.core_step (core_of self.old) (event_at seat (Split other))) }
        ensures left { LeavesRoom self.old self.new seat (Split other) }
    {
        if other == seat || !is_seat(other) {
            return Answer::Failed;
        }
        let (by, seen) = self.sight(seat);
        if !self.seats[other as usize].split(by, seen) {
            return Answer::Failed;
        }
        Answer::Done
    }

    // A seat takes in another.
    fn join(&mut self, seat: Seat, other: Seat) -> Answer
        requires seat { seat < ANNOUNCERS }
        ensures step { ◌≡◌ {A = Answer × Core} (result, core_of self.new) (step_specs.core_step (core_of self.old) (event_at seat (Join other))) }
        ensures left { LeavesRoom self.old self.new seat (Join other) }
    {
        if other == seat {
            return Answer::Failed;
        }
        let (place, seen) = self.sight(other);
        if !self.seats[seat as usize].join(place, seen) {
            return Answer::Failed;
        }
        Answer::Done
    }

    // Where a seat is, and the tail that it has seen.
    fn sight(&self, seat: Seat) -> (Place, Stamp)
        ensures place { result.0 ≡ ((core_of self.now).seats seat).place }
        ensures seen { result.1 ≡ ((core_of self.now).seats seat).seen }
    {
        match self.seats.get(seat as usize) {
            Some(x) => (x.place, x.seen),
            None => (Place::Vacant, self.opening),
        }
    }

    /// Takes a step: exactly the core step. It takes no memory.
    pub fn step(&mut self, event: Event) -> Answer
        requires room { HasRoom self.old event.seat event.kind }
        requires sound { Sound (core_of self.old) }
        ensures step { ◌≡◌ {A = Answer × Core} (result, core_of self.new) (step_specs.core_step (core_of self.old) event) }
        ensures sound { Sound (core_of self.new) }
        ensures left { LeavesRoom self.old self.new event.seat event.kind }
    {
        erm_sound::steps_keep_sound();
        if event.seat >= ANNOUNCERS {
            return Answer::Failed;
        }
        match event.kind {
            Kind::Split { seat } => self.split(event.seat, seat),
            Kind::Join { seat } => self.join(event.seat, seat),
            kind => self.step_word(event.seat, kind),
        }
    }
}
