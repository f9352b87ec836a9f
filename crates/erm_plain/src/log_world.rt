//! The world in lists as a log that a flusher sees, and as a world of sessions with such a log.
use crate::Plain;
use crate::plain::standing_worlds_have_laws;
use erm_model::{Oid, Row, RowLaw, Stamp};
use erm_world::{Gathered, LogWorld, ScriptWorld, SeatWait};

impl<L: RowLaw> LogWorld for Plain<L> {
    ghost use Rattle.erm_plain.specs.Logs.{KeepsSessions, keeps_itself, keeps_on, plain_log};
    ghost use Rattle.erm_plain.specs.Stands.{IsWorld};

    ghost rows_law = { L.law };

    ghost log = { λ p. plain_log p };

    ghost log_stands = { λ p. IsWorld L.law p };

    ghost keeps = { λ p q. KeepsSessions L.law p q };

    fn gather(&mut self, words: &mut [u64]) -> Gathered {
        standing_worlds_have_laws::<L>();
        self.lists.gather(words)
    }

    fn flushed_to(&mut self, end: Stamp) {
        standing_worlds_have_laws::<L>();
        self.lists.flushed_to(end)
    }

    fn pin(&mut self) -> Stamp {
        standing_worlds_have_laws::<L>();
        self.lists.pin()
    }

    fn row_at(&mut self, oid: Oid) -> Result<Row, SeatWait> {
        standing_worlds_have_laws::<L>();
        self.lists.row_at(oid)
    }

    fn unpin(&mut self) {
        standing_worlds_have_laws::<L>();
        self.lists.unpin()
    }

    fn respects_rows() {
        L::respects_rows();
    }

    ghost is_log = { λ p world. world.log };

    ghost keeps_itself = { λ p. keeps_itself L.law p };

    ghost keeps_on = { λ p q r first second. keeps_on L.law p q r first second };
}

impl<L: RowLaw> ScriptWorld for Plain<L> {
    ghost use Rattle.erm_core_steps.specs.Keeping.{one_law};
    ghost use Rattle.erm_plain.specs.Logs.{sessions_stay};

    ghost one_law = { one_law L.law };

    ghost may_flush = { λ p world. world };

    ghost sessions_stay = { λ p q world keeps after. (after, sessions_stay L.law p q keeps) };

    ghost one_log = { λ p world. world.log_of_view };
}
