//! The flush seat's log, of whose calls it is told too that they took steps of the flush seat alone.
ghost use Rattle.std.proofs.Common.{◌∙◌};
ghost use Rattle.std.specs.Prelude.{◌≡◌, ◌*◌, refl};
ghost use Rattle.erm_desk.specs.Known.{AwaitsLog, HasEnded, HasStopped, KnowsLog};
ghost use Rattle.erm_desk.specs.Turns.{DidLook, DidPin, DidRead, DidStore, DidWait, EndsPin, FlushSteps, IsPinAt};
ghost use Rattle.erm_desk.proofs.Stepped.{no_steps, steps_both};
ghost use Rattle.erm_ring.specs.Turns.{MayClear, MayGather, WasOpen};
ghost use Rattle.erm_rule.specs.Books.{book};
ghost use Rattle.erm_rule.specs.Steps.{Fits};
ghost use Rattle.erm_rule.specs.Views.{view};

use erm_desk::FlushSeat;
use erm_log_view::{LogView, PinnedLog};
use erm_model::{Oid, Row, RowLaw, Stamp};
use erm_record::stored_words_tell_the_row;
use erm_world::{Gathered, SeatWait};

/// The flush seat's log, as `FlushSeat` has it. What is known of a later state besides is that the flush seat alone took steps.
#[derive(Drop)]
pub struct StepSeat<'a, L: RowLaw> {
    pub seat: FlushSeat<'a, L>,
}

impl<'a, L: RowLaw> LogView for StepSeat<'a, L> {
    ghost rows_law = { L.law };

    ghost stands = { λ s. Fits s.seat.table.now.words.shared.table_id s.seat.pass.now × MayGather (view s.seat.pass.now) × IsPinAt s.seat.pin (view s.seat.pass.now) };

    ghost keeps = { λ s t. (t.seat.pass.ghost_name ≡ s.seat.pass.ghost_name)
        × (t.seat.table.now.words.shared.table_id ≡ s.seat.table.now.words.shared.table_id) × FlushSteps L.law (book s.seat.pass.now) (book t.seat.pass.now) };

    ghost knows = { λ s l. KnowsLog L.law (book s.seat.pass.now) l };

    ghost awaits = { λ s l. AwaitsLog L.law (book s.seat.pass.now) l };

    ghost ended = { λ s place t. HasEnded (book s.seat.pass.now) place (book t.seat.pass.now) };

    ghost opened = { λ s place t. WasOpen (book s.seat.pass.now) place (book t.seat.pass.now) };

    ghost stopped = { λ s place t. HasStopped (book s.seat.pass.now) place (book t.seat.pass.now) };

    ghost gathers = { λ s g words t. DidLook L.law (book s.seat.pass.now) g words (book t.seat.pass.now) };

    ghost may_flush = { λ end s. MayClear end (view s.seat.pass.now) };

    ghost flushes = { λ s end t. DidStore L.law (book s.seat.pass.now) end (book t.seat.pass.now) };

    fn gather(&mut self, words: &mut [u64]) -> Gathered {
        self.seat.gather(words)
    }

    fn flushed_to(&mut self, end: Stamp) {
        self.seat.flushed_to(end)
    }

    fn gathers_are_known() {
        erm_log_list::blocks_are_a_log_list::<L>();
        erm_log_list::logs_go_on::<L>();
        stored_words_tell_the_row();
        erm_block::one_spelling();
        erm_core_stays::decided_blocks_stay();
    }

    ghost keeps_itself = { λ s. (refl, refl, no_steps L.law (book s.seat.pass.now)) };

    ghost keeps_on = { λ s t u first second. (
      second.0 ∙ first.0,
      second.1 ∙ first.1,
      steps_both L.law (book s.seat.pass.now) (book t.seat.pass.now) (book u.seat.pass.now) first.2 second.2,
    ) };
}

impl<'a, L: RowLaw> PinnedLog for StepSeat<'a, L> {
    ghost pins = { λ s place t. DidPin L.law (book s.seat.pass.now) place (book t.seat.pass.now) };

    ghost reads = { λ s oid row t. DidRead L.law (book s.seat.pass.now) oid row (book t.seat.pass.now) };

    ghost waits = { λ s oid wait t. DidWait L.law (book s.seat.pass.now) oid wait (book t.seat.pass.now) };

    ghost unpins = { λ s t. EndsPin L.law (book s.seat.pass.now) (book t.seat.pass.now) };

    fn pin(&mut self) -> Stamp {
        self.seat.pin()
    }

    fn row_at(&mut self, oid: Oid) -> Result<Row, SeatWait> {
        self.seat.row_at(oid)
    }

    fn unpin(&mut self) {
        self.seat.unpin()
    }

    fn pins_are_known() {
        erm_log_list::blocks_are_a_log_list::<L>();
        erm_log_list::logs_go_on::<L>();
        stored_words_tell_the_row();
        erm_block::one_spelling();
        erm_core_stays::decided_blocks_stay();
        erm_core_ssn::commits_are_certified();
        erm_core_ssn::commits_are_a_snapshot_history();
    }

    fn respects_rows() {
        L::respects_rows();
    }
}
