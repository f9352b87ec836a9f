//! Steps of a session that the machine takes.
ghost use Rattle.std.specs.Prelude.{◌≡◌, Some, true};
ghost use Rattle.erm_machine.specs.Core.{spot_of, word_at};
ghost use Rattle.erm_machine.specs.Step as step_specs;
ghost use Rattle.erm_core.specs.Cores.{core_of};
ghost use Rattle.erm_core.specs.Rooms.{HasCallRoom, HasRoom, LeavesRoom};
ghost use Rattle.erm_sound.specs.Kept.{Keeps, SoundUnder};
ghost use Rattle.erm_lists.specs.Stands.{Stands, lists_view};
ghost use Rattle.erm_core_steps.specs.Steps.{IsFree, IsTaken, found_in};

use crate::Lists;
use erm_core::Need;
use erm_machine::{Answer, Event, Kind};
use erm_model::{RowLaw, Seat};

// The word that a step found, or 0 where its answer tells none.
pub(crate) fn found(answer: Answer) -> u64
    ensures { result ≡ found_in answer }
{
    match answer {
        Answer::Word(word) => word,
        _ => 0,
    }
}

impl<L: RowLaw> Lists<L> {
    // Makes room for a call of a seat: whether there was memory for it.
    pub(crate) fn has_room(&mut self, seat: Seat, need: Need) -> bool
        requires stands { Stands L.law self.old }
        ensures room { result ≡ true → HasCallRoom self.new.state seat need }
        ensures stands { Stands L.law self.new }
        ensures view { lists_view self.new ≡ lists_view self.old }
        ensures core { core_of self.new.state ≡ core_of self.old.state }
    {
        self.state.room(seat, need).is_ok()
    }

    // Takes a step that has its room.
    pub(crate) fn take(&mut self, seat: Seat, kind: Kind) -> Answer
        requires sound { SoundUnder L.law (core_of self.old.state) }
        requires room { HasRoom self.old.state seat kind }
        requires keeps { Keeps L.law (core_of self.old.state) seat kind }
        requires taken { IsTaken (core_of self.old.state) seat kind }
        ensures sound { SoundUnder L.law (core_of self.new.state) }
        ensures after { step_specs.after_event (core_of self.old.state) seat kind ≡ Some (core_of self.new.state) }
        ensures answer { result ≡ step_specs.told kind (word_at (core_of self.old.state) (spot_of seat kind)) }
        ensures sessions { self.new.sessions ≡ self.old.sessions }
        ensures left { LeavesRoom self.old.state self.new.state seat kind }
    {
        erm_sound::events_keep_law::<L>();
        self.state.step(Event { seat, kind })
    }

    // Takes a step that needs no room.
    pub(crate) fn go(&mut self, seat: Seat, kind: Kind) -> Answer
        requires sound { SoundUnder L.law (core_of self.old.state) }
        requires free { IsFree kind }
        requires taken { IsTaken (core_of self.old.state) seat kind }
        ensures sound { SoundUnder L.law (core_of self.new.state) }
        ensures after { step_specs.after_event (core_of self.old.state) seat kind ≡ Some (core_of self.new.state) }
        ensures answer { result ≡ step_specs.told kind (word_at (core_of self.old.state) (spot_of seat kind)) }
        ensures sessions { self.new.sessions ≡ self.old.sessions }
        ensures left { LeavesRoom self.old.state self.new.state seat kind }
    {
        erm_core::rooms_serve();
        self.take(seat, kind)
    }
}
