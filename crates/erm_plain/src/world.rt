//! The world in lists as a world of sessions.
use crate::Plain;
use crate::plain::standing_worlds_have_laws;
use erm_model::{Oid, Outcome, Phase, Receipt, Row, RowLaw, RowStop, SAVES, Seat, Stamp};
use erm_world::{BeginStop, NoSave, NotFlushed, RowWorld, SaveStop, Wait};

impl<L: RowLaw> RowWorld for Plain<L> {
    ghost use Rattle.erm_plain.specs.Stands.{IsWorld, plain_view};

    ghost law = { L.law };

    ghost view = { λ p. plain_view p };

    ghost stands = { λ p. IsWorld L.law p };

    fn begin(&mut self, seat: Seat) -> Result<Stamp, BeginStop> {
        standing_worlds_have_laws::<L>();
        let stamp = self.lists.begin(seat)?;
        self.saves.cut(seat, 0);
        Ok(stamp)
    }

    fn phase(&self, seat: Seat) -> Phase {
        self.lists.phase(seat)
    }

    fn read(&mut self, seat: Seat, oid: Oid) -> Result<Row, RowStop> {
        standing_worlds_have_laws::<L>();
        self.lists.read(seat, oid)
    }

    fn claim(&mut self, seat: Seat, oid: Oid) -> Result<(), RowStop> {
        standing_worlds_have_laws::<L>();
        self.lists.claim(seat, oid)
    }

    fn write(&mut self, seat: Seat, oid: Oid, row: &Row) -> Result<(), RowStop> {
        standing_worlds_have_laws::<L>();
        self.lists.write(seat, oid, row)
    }

    fn fresh(&mut self, seat: Seat) -> Result<Oid, RowStop> {
        standing_worlds_have_laws::<L>();
        self.lists.fresh(seat)
    }

    fn tidy(&mut self, seat: Seat, oid: Oid) -> Result<u32, RowStop> {
        standing_worlds_have_laws::<L>();
        self.lists.tidy(seat, oid)
    }

    fn save(&mut self, seat: Seat) -> Result<u32, SaveStop> {
        standing_worlds_have_laws::<L>();
        let held = self.saves.held(seat);
        if held >= SAVES {
            return Err(SaveStop::SavesFull { held: held as u32 });
        }
        match self.saves.save(seat, self.lists.claims_made(seat)) {
            Ok(()) => Ok(held as u32 + 1),
            Err(_) => Err(SaveStop::Memory),
        }
    }

    fn back(&mut self, seat: Seat, n: u32) -> Result<(), NoSave> {
        standing_worlds_have_laws::<L>();
        let held = self.saves.held(seat);
        if n == 0 || n as usize > held {
            return Err(NoSave { held: held as u32 });
        }
        let saved = self.saves.saved(seat, n as usize - 1);
        self.lists.restore(seat, saved);
        self.saves.cut(seat, n as usize);
        Ok(())
    }

    fn seal(&mut self, seat: Seat) -> Stamp {
        standing_worlds_have_laws::<L>();
        self.lists.seal(seat)
    }

    fn settle(&mut self, seat: Seat) -> Result<Outcome, Wait> {
        standing_worlds_have_laws::<L>();
        self.lists.settle(seat)
    }

    fn durable(&mut self, seat: Seat, receipt: &Receipt) -> Result<(), NotFlushed> {
        standing_worlds_have_laws::<L>();
        self.lists.durable(seat, receipt)
    }

    fn abort(&mut self, seat: Seat) {
        standing_worlds_have_laws::<L>();
        self.lists.abort(seat)
    }

    ghost serializable = { λ p world. world.serializable };

    ghost possible = { λ p world. world.possible };
}
