//! The world over the word table as a log that a flusher sees, and as a world of sessions with such a log.
use crate::world::standing_worlds_have_laws;
use crate::{TableWorld, turns};
use erm_model::{Oid, Row, RowLaw, Stamp};
use erm_world::{Gathered, LogWorld, ScriptWorld, SeatWait};

impl<L: RowLaw> LogWorld for TableWorld<L> {
    ghost use Rattle.erm_core_steps.specs.Keeping as keeping;
    ghost use Rattle.erm_table_world.specs.Logs.{KeepsSessions};
    ghost use Rattle.erm_table_world.specs.Stands.{IsTableWorld, Stands, table_log, world_view};

    ghost rows_law = { L.law };

    ghost log = { λ w. table_log w };

    ghost log_stands = { λ w. IsTableWorld L.law w };

    ghost keeps = { λ v w. KeepsSessions L.law v w };

    fn gather(&mut self, words: &mut [u64]) -> Gathered {
        standing_worlds_have_laws::<L>();
        turns::gather(&self.table, &mut self.pass, words)
    }

    fn flushed_to(&mut self, end: Stamp) {
        standing_worlds_have_laws::<L>();
        turns::flushed_to(&self.table, &mut self.pass, end);
    }

    fn pin(&mut self) -> Stamp {
        standing_worlds_have_laws::<L>();
        let place = turns::pin(&self.table, &mut self.pass);
        self.pin = place;
        place
    }

    fn row_at(&mut self, oid: Oid) -> Result<Row, SeatWait> {
        standing_worlds_have_laws::<L>();
        erm_log_list::blocks_are_a_log_list::<L>();
        erm_log_list::logs_go_on::<L>();
        erm_core_view::views_are_serializable::<L>();
        turns::row_at(&self.table, &mut self.pass, oid, self.pin)
    }

    fn unpin(&mut self) {
        standing_worlds_have_laws::<L>();
        turns::unpin(&self.table, &mut self.pass);
    }

    fn respects_rows() {
        L::respects_rows();
    }

    ghost is_log = { λ w world. world.log };

    ghost keeps_itself = { λ w. keeping.keeps_itself (Stands L.law) world_view w };

    ghost keeps_on = { λ u v w first second. keeping.keeps_on (Stands L.law) world_view u v w first second };
}

impl<L: RowLaw> ScriptWorld for TableWorld<L> {
    ghost use Rattle.erm_core_steps.specs.Keeping.{one_law};

    ghost one_law = { one_law L.law };

    ghost may_flush = { λ w world. world };

    ghost sessions_stay = { λ v w world keeps after. (after, keeps.sessions) };

    ghost one_log = { λ w world. world.log_of_view };
}
