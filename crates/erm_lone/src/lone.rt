//! A session of a world that nobody else calls meanwhile.
ghost use Rattle.erm_world.specs.World.{IsSession};
ghost use Rattle.erm_lone.specs.Later.{EndsIn, OthersStand};
ghost use Rattle.erm_lone.specs.Within.{ends_itself, is_sound, is_within};

use crate::{Others, worlds_move_on};
use erm_beside::SharedSession;
use erm_model::{Oid, Outcome, Phase, Receipt, Row, RowStop, Seat, Stamp};
use erm_world::{BeginStop, NoSave, NotFlushed, RowWorld, SaveStop, Wait};
use std::marker::PhantomData;

/// A world and the seat of one of its sessions. It has the world alone, so that the others may go on between its calls only where the world
/// is handed on to them: while it is called they stand as they stood.
#[derive(Drop)]
pub struct LoneSession<W, O> {
    pub world: W,
    pub seat: Seat,
    pub others: PhantomData<O>,
}

impl<W: RowWorld, O: Others> SharedSession for LoneSession<W, O> {
    type Shared = ();

    ghost law = { W.law };

    ghost own = { λ s. W.view s.world };

    ghost seat = { λ s. s.seat };

    ghost stands = { λ shared s. W.stands s.world × IsSession (W.view s.world) s.seat × OthersStand O.standing (W.view s.world) s.seat };

    ghost ends = { λ s f. EndsIn W.law (W.view s.world) s.seat f };

    fn begin(&mut self, _shared: &()) -> Result<Stamp, BeginStop> {
        worlds_move_on();
        self.world.begin(self.seat)
    }

    fn phase(&self, _shared: &()) -> Phase {
        self.world.phase(self.seat)
    }

    fn read(&mut self, _shared: &(), oid: Oid) -> Result<Row, RowStop> {
        worlds_move_on();
        self.world.read(self.seat, oid)
    }

    fn claim(&mut self, _shared: &(), oid: Oid) -> Result<(), RowStop> {
        worlds_move_on();
        self.world.claim(self.seat, oid)
    }

    fn write(&mut self, _shared: &(), oid: Oid, row: &Row) -> Result<(), RowStop> {
        worlds_move_on();
        self.world.write(self.seat, oid, row)
    }

    fn fresh(&mut self, _shared: &()) -> Result<Oid, RowStop> {
        worlds_move_on();
        self.world.fresh(self.seat)
    }

    fn tidy(&mut self, _shared: &(), oid: Oid) -> Result<u32, RowStop> {
        worlds_move_on();
        self.world.tidy(self.seat, oid)
    }

    fn save(&mut self, _shared: &()) -> Result<u32, SaveStop> {
        worlds_move_on();
        self.world.save(self.seat)
    }

    fn back(&mut self, _shared: &(), n: u32) -> Result<(), NoSave> {
        worlds_move_on();
        self.world.back(self.seat, n)
    }

    fn seal(&mut self, _shared: &()) -> Stamp {
        worlds_move_on();
        self.world.seal(self.seat)
    }

    fn settle(&mut self, _shared: &()) -> Result<Outcome, Wait> {
        worlds_move_on();
        self.world.settle(self.seat)
    }

    fn durable(&mut self, _shared: &(), receipt: &Receipt) -> Result<(), NotFlushed> {
        worlds_move_on();
        self.world.durable(self.seat, receipt)
    }

    fn abort(&mut self, _shared: &()) {
        worlds_move_on();
        self.world.abort(self.seat)
    }

    ghost sound = { λ shared s standing. is_sound W.law (W.view s.world) s.seat standing.1 (W.serializable s.world standing.0) (W.possible s.world standing.0) };

    ghost within = { λ s f end. is_within W.law (W.view s.world) s.seat f end };

    ghost some = { λ shared s standing. (W.view s.world, ends_itself W.law (W.view s.world) s.seat standing.1 (W.serializable s.world standing.0)) };

    ghost lasting = { λ s f end. end.2 };
}
