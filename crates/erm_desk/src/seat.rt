//! The flush seat's log.
ghost use Rattle.std.proofs.Common.{◌∙◌};
ghost use Rattle.std.specs.Prelude.{◌≡◌, ◌*◌, refl};
ghost use Rattle.erm_desk.specs.Known.{AwaitsLog, HasEnded, HasStopped, KnowsLog};
ghost use Rattle.erm_desk.specs.Turns.{DidLook, DidPin, DidRead, DidStore, DidWait, EndsPin, IsPinAt};
ghost use Rattle.erm_ring.specs.Turns.{MayClear, MayGather, WasOpen};
ghost use Rattle.erm_rule.specs.Books.{book};
ghost use Rattle.erm_rule.specs.Steps.{Fits};
ghost use Rattle.erm_rule.specs.Views.{view};

use erm_log_view::{LogView, PinnedLog};
use erm_model::{Oid, Row, RowLaw, Stamp};
use erm_record::stored_words_tell_the_row;
use erm_ring::{clear, gather};
use erm_rule::{Pass, Table};
use erm_world::{Gathered, SeatWait};

/// A table and a pass with its flush seat: the table's log, which others may go on writing.
#[derive(Drop)]
pub struct FlushSeat<'a, L: RowLaw> {
    pub table: &'a Table<L>,
    pub pass: &'a mut Pass,
    /// The place of its pin, where it has one.
    pub pin: Stamp,
}

impl<'a, L: RowLaw> LogView for FlushSeat<'a, L> {
    ghost rows_law = { L.law };

    ghost stands = { λ s. Fits s.table.now.words.shared.table_id s.pass.now × MayGather (view s.pass.now) × IsPinAt s.pin (view s.pass.now) };

    ghost keeps = { λ s t. (t.pass.ghost_name ≡ s.pass.ghost_name) × (t.table.now.words.shared.table_id ≡ s.table.now.words.shared.table_id) };

    ghost knows = { λ s l. KnowsLog L.law (book s.pass.now) l };

    ghost awaits = { λ s l. AwaitsLog L.law (book s.pass.now) l };

    ghost ended = { λ s place t. HasEnded (book s.pass.now) place (book t.pass.now) };

    ghost opened = { λ s place t. WasOpen (book s.pass.now) place (book t.pass.now) };

    ghost stopped = { λ s place t. HasStopped (book s.pass.now) place (book t.pass.now) };

    ghost gathers = { λ s g words t. DidLook L.law (book s.pass.now) g words (book t.pass.now) };

    ghost may_flush = { λ end s. MayClear end (view s.pass.now) };

    ghost flushes = { λ s end t. DidStore L.law (book s.pass.now) end (book t.pass.now) };

    fn gather(&mut self, words: &mut [u64]) -> Gathered {
        erm_gathered::turns_go_on();
        gather(self.table, self.pass, words)
    }

    fn flushed_to(&mut self, end: Stamp) {
        erm_gathered::turns_go_on();
        clear(self.table, self.pass, end);
    }

    fn gathers_are_known() {
        erm_log_list::blocks_are_a_log_list::<L>();
        erm_log_list::logs_go_on::<L>();
        stored_words_tell_the_row();
        erm_block::one_spelling();
        erm_core_stays::decided_blocks_stay();
    }

    ghost keeps_itself = { λ s. (refl, refl) };

    ghost keeps_on = { λ s t u first second. (second.0 ∙ first.0, second.1 ∙ first.1) };
}

impl<'a, L: RowLaw> PinnedLog for FlushSeat<'a, L> {
    ghost pins = { λ s place t. DidPin L.law (book s.pass.now) place (book t.pass.now) };

    ghost reads = { λ s oid row t. DidRead L.law (book s.pass.now) oid row (book t.pass.now) };

    ghost waits = { λ s oid wait t. DidWait L.law (book s.pass.now) oid wait (book t.pass.now) };

    ghost unpins = { λ s t. EndsPin L.law (book s.pass.now) (book t.pass.now) };

    fn pin(&mut self) -> Stamp {
        self.pin = erm_pin::pin(self.table, self.pass);
        self.pin
    }

    fn row_at(&mut self, oid: Oid) -> Result<Row, SeatWait> {
        match erm_pin::row_at(self.table, self.pass, oid, self.pin) {
            Ok(row) => Ok(row),
            Err(wait) => Err(SeatWait {
                seat: wait.seat,
                seen: wait.seen,
            }),
        }
    }

    fn unpin(&mut self) {
        erm_pin::unpin(self.table, self.pass);
    }

    fn pins_are_known() {
        erm_log_list::blocks_are_a_log_list::<L>();
        erm_log_list::logs_go_on::<L>();
        stored_words_tell_the_row();
        erm_block::one_spelling();
        erm_core_stays::decided_blocks_stay();
        erm_core_ssn::commits_are_certified();
        erm_core_ssn::commits_are_a_snapshot_history();
    }

    fn respects_rows() {
        L::respects_rows();
    }
}
