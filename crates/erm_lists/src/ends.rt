//! The end of a transaction that aborts.
ghost use Rattle.std.specs.Prelude.{◌≡◌, ◌<◌, true, length};
ghost use Rattle.erm_machine.specs.Core.{claim_at};
ghost use Rattle.erm_machine.specs.Seat.{read_at};
ghost use Rattle.erm_sound.specs.Kept.{SoundUnder};
ghost use Rattle.erm_machine.specs.Words.{is_session};
ghost use Rattle.erm_model.specs.declared.outcome.Phase.TheVariants.{Active};
ghost use Rattle.erm_core.specs.Cores.{core_of};
ghost use Rattle.erm_core_steps.specs.Reads as reads_specs;
ghost use Rattle.erm_lists.specs.Stands.{Stands, lists_view};
ghost use Rattle.erm_core_steps.specs.Steps.{HasCleared, HasReleased, IsUnseen, MayEnd};
ghost use Rattle.erm_world.specs.Calls.{DidAbort};
ghost use Rattle.erm_world.specs.World.{IsSession, phase_at};

use crate::Lists;
use erm_machine::{Kind, VersionAt};
use erm_model::{RowLaw, Seat};

impl<L: RowLaw> Lists<L> {
    // How many objects the seat's transaction has claimed.
    pub(crate) fn claims(&self, seat: Seat) -> usize
        requires session { is_session seat ≡ true }
        ensures { result ≡ length ((core_of self.now.state).seats seat).current.writes }
    {
        self.state.seat(seat).current.writes.len()
    }

    // How many versions the seat's transaction has read.
    pub(crate) fn reads(&self, seat: Seat) -> usize
        requires session { is_session seat ≡ true }
        ensures { result ≡ length ((core_of self.now.state).seats seat).current.reads }
    {
        self.state.seat(seat).current.reads.len()
    }

    // The version that a claim of the seat's transaction overwrites.
    fn overwrites(&self, seat: Seat, place: usize) -> VersionAt
        requires session { is_session seat ≡ true }
        ensures { result ≡ (claim_at ((core_of self.now.state).seats seat).current place).version }
    {
        self.state.seat(seat).current.claim_at(place).version
    }

    // The version that the seat's transaction has read at a place.
    fn version_read(&self, seat: Seat, place: usize) -> VersionAt
        requires session { is_session seat ≡ true }
        ensures { result ≡ (read_at ((core_of self.now.state).seats seat).current place).version }
    {
        self.state.seat(seat).current.read_at(place).version
    }
}

// The name of no version.
pub(crate) fn no_version() -> VersionAt
    ensures { result ≡ reads_specs.no_version }
{
    VersionAt {
        oid: 0,
        place: 0,
        cell: 0,
    }
}

impl<L: RowLaw> Lists<L> {
    // Stores the entry of each claim with its old head.
    fn release_claims(&mut self, seat: Seat)
        requires sound { SoundUnder L.law (core_of self.old.state) }
        requires ends { MayEnd seat (core_of self.old.state) }
        ensures sound { SoundUnder L.law (core_of self.new.state) }
        ensures ends { HasReleased seat (core_of self.new.state) }
        ensures unseen { IsUnseen self.old.sessions seat (core_of self.old.state) (core_of self.new.state) }
        ensures sessions { self.new.sessions ≡ self.old.sessions }
    {
        for place in 0..self.claims(seat) {
            let version = self.overwrites(seat, place);
            self.go(
                seat,
                Kind::Install {
                    oid: version.oid,
                    head: version.cell,
                },
            );
        }
    }

    // Clears the own reader bit of each version read.
    fn clear_readers(&mut self, seat: Seat)
        requires sound { SoundUnder L.law (core_of self.old.state) }
        requires ends { HasReleased seat (core_of self.old.state) }
        ensures sound { SoundUnder L.law (core_of self.new.state) }
        ensures ends { HasCleared seat (core_of self.new.state) }
        ensures unseen { IsUnseen self.old.sessions seat (core_of self.old.state) (core_of self.new.state) }
        ensures sessions { self.new.sessions ≡ self.old.sessions }
    {
        for place in 0..self.reads(seat) {
            let version = self.version_read(seat, place);
            self.go(seat, Kind::ClearReader { version });
        }
    }

    /// Ends the transaction: nothing that it wrote stays.
    pub fn abort(&mut self, seat: Seat)
        requires stands { Stands L.law self.old }
        requires session { IsSession (lists_view self.old) seat }
        requires active { phase_at (lists_view self.old) seat ≡ Active }
        ensures stands { Stands L.law self.new }
        ensures aborted { DidAbort (lists_view self.old) seat (lists_view self.new) }
    {
        self.release_claims(seat);
        self.clear_readers(seat);
        self.go(seat, Kind::StoreBegin { value: 0 });
    }
}
