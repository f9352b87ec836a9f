//! The begin of a transaction.
ghost use Rattle.std.specs.Prelude.{◌≡◌, IfErr, IfOk, true};
ghost use Rattle.erm_model.specs.declared.outcome.Phase.TheVariants.{Idle};
ghost use Rattle.erm_machine.specs.Words.{is_session};
ghost use Rattle.erm_core.specs.Cores.{core_of};
ghost use Rattle.erm_lists.specs.Snapshots.{HasJustBegun};
ghost use Rattle.erm_lists.specs.Stands.{Stands, lists_view};
ghost use Rattle.erm_world.specs.Calls.{DidBegin, MayNotBegin};
ghost use Rattle.erm_world.specs.World.{IsSession, phase_at};

use crate::Lists;
use crate::steps::found;
use erm_core::Need;
use erm_machine::{Kind, LAST_NUMBER, STOP, TailUse};
use erm_model::{RowLaw, Seat, Stamp};
use erm_world::BeginStop;

impl<L: RowLaw> Lists<L> {
    // The number of the seat's last transaction.
    fn number(&self, seat: Seat) -> u32
        requires session { is_session seat ≡ true }
        ensures { result ≡ ((core_of self.now.state).seats seat).number }
    {
        self.state.seat(seat).number
    }

    /// Begins a transaction: the begin stamp, which is the end of the log, in words. It is refused, in this order, where memory
    /// runs out, where the session has had its last number, 2^32 - 1, and where the log's end is at or above 2^60; the view stays
    /// then.
    pub fn begin(&mut self, seat: Seat) -> Result<Stamp, BeginStop>
        requires stands { Stands L.law self.old }
        requires session { IsSession (lists_view self.old) seat }
        requires idle { phase_at (lists_view self.old) seat ≡ Idle }
        ensures stands { Stands L.law self.new }
        ensures ok { IfOk result (λ begin. DidBegin (lists_view self.old) seat begin (lists_view self.new)) }
        ensures begun { IfOk result (λ begin. HasJustBegun seat begin (core_of self.new.state)) }
        ensures err { IfErr result (λ stop. MayNotBegin (lists_view self.old) seat stop (lists_view self.new)) }
    {
        erm_core::rooms_serve();
        let purpose = TailUse::Begin;
        if !self.has_room(seat, Need::Begin) {
            return Err(BeginStop::Memory);
        }
        if self.number(seat) >= LAST_NUMBER {
            return Err(BeginStop::NumbersEnd);
        }
        let tail = found(self.take(seat, Kind::LoadTail { purpose }));
        if tail >= STOP {
            return Err(BeginStop::LogEnd { tail });
        }
        self.go(seat, Kind::StoreBegin { value: tail });
        Ok(found(self.take(seat, Kind::LoadTail { purpose })))
    }
}
