//! Events one after another.
ghost use Rattle.std.specs.Prelude.{◌≡◌, ℕ, IfOk, OnErr, OnOk, take};
ghost use Rattle.erm_machine.specs.Sound.{Sound};
ghost use Rattle.erm_machine.specs.declared.event.Answer.{Answer};
ghost use Rattle.erm_machine.specs.Core.{Core};
ghost use Rattle.erm_machine.specs.Step.{core_step, run_from};
ghost use Rattle.erm_core.specs.Cores.{core_of};

use super::State;
use erm_machine::{Answer, Event};
use std::alloc::AllocError;

impl State {
    /// Makes room for an event and takes the step. After an `Err` the state is as before.
    pub fn take(&mut self, event: Event) -> Result<Answer, AllocError>
        requires sound { Sound (core_of self.old) }
        ensures step { IfOk result (λ answer. ◌≡◌ {A = Answer × Core} (answer, core_of self.new) (core_step (core_of self.old) event)) }
        ensures err { OnErr result (core_of self.new ≡ core_of self.old) }
        ensures sound { Sound (core_of self.new) }
    {
        self.room_for(event)?;
        Ok(self.step(event))
    }

    /// Takes the steps of all events in turn: whatever they are, the state stays sound. After an `Err` it is that after the first
    /// ones.
    pub fn run(&mut self, events: &[Event]) -> Result<(), AllocError>
        requires sound { Sound (core_of self.old) }
        ensures run { OnOk result (core_of self.new ≡ run_from (core_of self.old) events.now) }
        ensures err { OnErr result ((k : ℕ) × (core_of self.new ≡ run_from (core_of self.old) (take k events.now))) }
        ensures sound { Sound (core_of self.new) }
    {
        for event in events {
            self.take(*event)?;
        }
        Ok(())
    }
}
