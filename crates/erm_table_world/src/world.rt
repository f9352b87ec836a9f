//! The world over the word table as a world of sessions.
ghost use Rattle.erm_table_world.specs.Stands.{IsTableWorld, Stands};

use crate::TableWorld;
use erm_model::{Oid, Outcome, Phase, Receipt, Row, RowLaw, RowStop, Seat, Stamp};
use erm_world::{BeginStop, NoSave, NotFlushed, RowWorld, SaveStop, Wait};

/// A world that stands between two calls has what each world of sessions has: its commits are serializable, each of its
/// transactions is possible, each safe snapshot stands on a safe stamp, and its log is a log, that of its view.
pub fn standing_worlds_have_laws<L: RowLaw>()
    ensures { (w : TableWorld L) → Stands L.law w → IsTableWorld L.law w }
{
    erm_core_view::views_are_serializable::<L>();
    erm_maps::works_are_possible::<L>();
    erm_core_turns::states_have_logs::<L>();
}

impl<L: RowLaw> RowWorld for TableWorld<L> {
    ghost use Rattle.erm_table_world.specs.Stands.{world_view};

    ghost law = { L.law };

    ghost view = { λ w. world_view w };

    ghost stands = { λ w. IsTableWorld L.law w };

    fn begin(&mut self, seat: Seat) -> Result<Stamp, BeginStop> {
        standing_worlds_have_laws::<L>();
        self.begin(seat)
    }

    fn phase(&self, seat: Seat) -> Phase {
        self.phase(seat)
    }

    fn read(&mut self, seat: Seat, oid: Oid) -> Result<Row, RowStop> {
        standing_worlds_have_laws::<L>();
        self.read(seat, oid)
    }

    fn claim(&mut self, seat: Seat, oid: Oid) -> Result<(), RowStop> {
        standing_worlds_have_laws::<L>();
        self.claim(seat, oid)
    }

    fn write(&mut self, seat: Seat, oid: Oid, row: &Row) -> Result<(), RowStop> {
        standing_worlds_have_laws::<L>();
        self.write(seat, oid, row)
    }

    fn fresh(&mut self, seat: Seat) -> Result<Oid, RowStop> {
        standing_worlds_have_laws::<L>();
        self.fresh(seat)
    }

    fn tidy(&mut self, seat: Seat, oid: Oid) -> Result<u32, RowStop> {
        standing_worlds_have_laws::<L>();
        self.tidy(seat, oid)
    }

    fn save(&mut self, seat: Seat) -> Result<u32, SaveStop> {
        standing_worlds_have_laws::<L>();
        self.save(seat)
    }

    fn back(&mut self, seat: Seat, n: u32) -> Result<(), NoSave> {
        standing_worlds_have_laws::<L>();
        self.back(seat, n)
    }

    fn seal(&mut self, seat: Seat) -> Stamp {
        standing_worlds_have_laws::<L>();
        self.seal(seat)
    }

    fn settle(&mut self, seat: Seat) -> Result<Outcome, Wait> {
        standing_worlds_have_laws::<L>();
        self.settle(seat)
    }

    fn durable(&mut self, seat: Seat, receipt: &Receipt) -> Result<(), NotFlushed> {
        standing_worlds_have_laws::<L>();
        self.durable(seat, receipt)
    }

    fn abort(&mut self, seat: Seat) {
        standing_worlds_have_laws::<L>();
        self.abort(seat)
    }

    ghost serializable = { λ w world. world.serializable };

    ghost possible = { λ w world. world.possible };
}
