//! What a client over the word table waits by.
ghost use Rattle.std.specs.Prelude.{◌≡◌, ◌<◌, false};

use erm_desk::Naming;
use erm_model::RowLaw;
use erm_outside::{Disk, Gate, Place};
use erm_run_beside::DeskTurns;
use erm_worker::{Turns, Why};
use std::sync::Wait;
use std::sync::ledger::{Ledger, Share};

/// Turns of the desk, by which a client waits. It is told to stop once it has met that the disk has failed: its share counts that. It is told so for nothing
/// else: where memory runs out for one client it tells no other one, and these go on.
#[derive(Drop)]
pub(crate) struct ClientTurns<'a, L: RowLaw, D: Disk + Drop, B: Naming + Ledger, G: Gate, R: Wait> {
    pub(crate) turns: DeskTurns<'a, L, D, B, G, R>,
}

impl<'a, L: RowLaw, D: Disk + Drop, B: Naming + Ledger, G: Gate, R: Wait> ClientTurns<
    'a,
    L,
    D,
    B,
    G,
    R,
> {
    /// How often a turn of the client told that the disk has failed.
    pub(crate) fn into_met(self) -> Share<B>
        ensures { result.amount ≡ self.entry.turns.met.amount }
    {
        self.turns.into_met()
    }
}

impl<'a, L: RowLaw, D: Disk + Drop, B: Naming + Ledger, G: Gate, R: Wait> Turns
    for ClientTurns<'a, L, D, B, G, R> {
    ghost told = { λ client. 0 < client.turns.met.amount };

    ghost starved = { λ client. false };

    fn pass(&mut self, place: Place) {
        self.turns.pass(place);
    }

    fn wait(&mut self, why: Why) -> bool {
        self.turns.wait(why) || self.turns.is_starved()
    }

    fn goes_on(&mut self) -> bool {
        self.turns.goes_on() || self.turns.is_starved()
    }

    fn is_starved(&self) -> bool {
        false
    }

    fn tell_starved(&mut self) {}
}
