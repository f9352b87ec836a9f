//! A world's log as one that nobody else writes.
ghost use Rattle.std.proofs.Common.{◌∙◌};
ghost use Rattle.std.specs.Prelude.{◌≡◌, ◌<◌, ◌≤◌, ◌*◌, IsSome, None, Some, refl};
ghost use Rattle.erm_flush.specs.Pinned.{Reads};
ghost use Rattle.erm_world.specs.Log.{Gathers, IsStop, IsWait, gathered_to};

use erm_log_view::{LogView, PinnedLog};
use erm_model::{Oid, Row, Stamp};
use erm_record::stored_words_tell_the_row;
use erm_world::{Gathered, LogWorld, SeatWait};

/// A world's log, which nobody else writes between two calls of a flusher: what is known of it is what it is.
#[derive(Drop)]
pub struct WorldLog<'a, W> {
    pub world: &'a mut W,
}

impl<'a, W: LogWorld> LogView for WorldLog<'a, W> {
    ghost rows_law = { W.rows_law };

    ghost stands = { λ s. W.log_stands s.world.now };

    ghost keeps = { λ s t. (t.world.ghost_name ≡ s.world.ghost_name) × W.keeps s.world.now t.world.now };

    ghost knows = { λ s l. l ≡ W.log s.world.now };

    ghost awaits = { λ s l. l ≡ W.log s.world.now };

    ghost ended = { λ s place t. (W.log s.world.now).tail ≡ place };

    ghost opened = { λ s place t. IsSome ((W.log s.world.now).undecided place) };

    ghost stopped = { λ s place t. IsStop (W.log s.world.now) place };

    ghost gathers = { λ s g words t. Gathers g (W.log s.world.now) (W.log t.world.now) words };

    ghost may_flush = { λ end s. (end ≡ gathered_to (W.log s.world.now)) × ((W.log s.world.now).flushed < end) };

    ghost flushes = { λ s end t. W.log t.world.now ≡ record (W.log s.world.now) { flushed = end } };

    fn gather(&mut self, words: &mut [u64]) -> Gathered {
        stored_words_tell_the_row();
        self.world.gather(words)
    }

    fn flushed_to(&mut self, end: Stamp) {
        self.world.flushed_to(end)
    }

    fn gathers_are_known() {}

    ghost keeps_itself = { λ s. (refl, W.keeps_itself s.world.now) };

    ghost keeps_on = { λ s t u first second. (second.0 ∙ first.0, W.keeps_on s.world.now t.world.now u.world.now first.1 second.1) };
}

impl<'a, W: LogWorld> PinnedLog for WorldLog<'a, W> {
    ghost pins = { λ s place t. ((W.log s.world.now).tail ≤ place) × (W.log t.world.now ≡ record (W.log s.world.now) { tail = place; pinned = Some place }) };

    ghost reads = { λ s oid row t. Reads W.log W.keeps s.world.now oid row t.world.now };

    ghost waits = { λ s oid wait t. (W.log t.world.now ≡ W.log s.world.now) × IsWait (W.log s.world.now) oid wait };

    ghost unpins = { λ s t. W.log t.world.now ≡ record (W.log s.world.now) { pinned = None } };

    fn pin(&mut self) -> Stamp {
        self.world.pin()
    }

    fn row_at(&mut self, oid: Oid) -> Result<Row, SeatWait> {
        self.world.row_at(oid)
    }

    fn unpin(&mut self) {
        self.world.unpin()
    }

    fn pins_are_known() {}

    fn respects_rows() {
        W::respects_rows();
    }
}
