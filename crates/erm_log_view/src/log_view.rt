//! A log that others may go on writing, as a flusher sees it.
ghost use Rattle.std.specs.Prelude.{◌≡◌, ℕ, List, length};
ghost use Rattle.erm_model.specs.declared.limits.TheConstants.{RING_WORDS};
ghost use Rattle.erm_model.specs.RowTransaction.{Law};
ghost use Rattle.erm_world.specs.declared.gathered.Gathered.{Gathered as GatheredValue};
ghost use Rattle.erm_world.specs.Log.{IsLog, Log, gathered_to};
ghost use Rattle.erm_log_view.specs.Views.{Fits, MayFlush, Sees, StopsBy};

use erm_model::Stamp;
use erm_world::Gathered;

/// A log that others may go on writing, as a flusher sees it: it gathers the blocks that are decided from the place flushed on, and is told
/// how far all is synced. Places are in words. No call takes memory. What a call does is said by the log's own relations, and what that
/// means for the log, as far as it is known, by the laws at the end.
pub trait LogView {
    /// The law that its rows keep.
    ghost rows_law: { Law };

    /// It may be called.
    ghost stands: { Self → Type 0 };

    /// A later state, after calls of this trait.
    ghost keeps: { Self → Self → Type 0 };

    /// What is known of it between two turns: of its end no more than that it was met there.
    ghost knows: { Self → Log → Type 0 };

    /// What is known of it once blocks were gathered that aren't told flushed.
    ghost awaits: { Self → Log → Type 0 };

    /// At some moment between two states it ended at this place, or before it.
    ghost ended: { Self → ℕ → Self → Type 0 };

    /// At some moment between two states a range that wasn't decided began at this place.
    ghost opened: { Self → ℕ → Self → Type 0 };

    /// At some moment between two states nothing more was to gather at this place: it was one or the other there.
    ghost stopped: { Self → ℕ → Self → Type 0 };

    /// What a gather does: with this answer and these words it leads from one state to another.
    ghost gathers: { Self → GatheredValue → List ℕ → Self → Type 0 };

    /// What was gathered, up to this place, may be told flushed.
    ghost may_flush: { ℕ → Self → Type 0 };

    /// From one state to another it was told that all is flushed up to this place.
    ghost flushes: { Self → ℕ → Self → Type 0 };

    /// Gathers the words of the decided blocks from the place flushed on, up to the first that isn't decided or the log's end, into the
    /// front of `words`, which has room for the ring.
    fn gather(&mut self, words: &mut [u64]) -> Gathered
        requires stands { stands self.old }
        requires room { length words.old ≡ RING_WORDS }
        ensures stands { stands self.new }
        ensures keeps { keeps self.old self.new }
        ensures room { length words.new ≡ RING_WORDS }
        ensures fits { Fits result }
        ensures may { MayFlush may_flush result self.new }
        ensures gathers { gathers self.old result words.new self.new };

    /// Says that all words up to the end of what was gathered are synced.
    fn flushed_to(&mut self, end: Stamp)
        requires stands { stands self.old }
        requires may { may_flush end self.old }
        ensures stands { stands self.new }
        ensures keeps { keeps self.old self.new }
        ensures flushes { flushes self.old end self.new };

    /// What gathers and flushes mean for the log, as far as it is known: what was gathered are the blocks from the place flushed on, up to
    /// a stop, and what is told flushed is flushed. This holds for all states, and the function does nothing.
    fn gathers_are_known()
        ensures sees { (s t : Self) (g : GatheredValue) (words : List ℕ) (l : Log) → stands s → stands t → knows s l → gathers s g words t → Sees knows awaits g l words t }
        ensures stops { (s t : Self) (g : GatheredValue) (words : List ℕ) → stands s → gathers s g words t → StopsBy ended opened stopped g s t }
        ensures flushed { (s t : Self) (end : ℕ) (l : Log) → awaits s l → end ≡ gathered_to l → flushes s end t → knows t (record l { flushed = end }) }
        ensures stays { (s t u : Self) (place end : ℕ) → stopped s place t → flushes t end u → stopped s place u }
        ensures log { (s : Self) (l : Log) → stands s → knows s l → IsLog rows_law.meets l }
        ensures gathered { (s : Self) (l : Log) → stands s → awaits s l → IsLog rows_law.meets l };

    /// Each state is kept by no call, and by calls one after another.
    ghost keeps_itself: { (s : Self) → keeps s s };

    ghost keeps_on: { (s t u : Self) → keeps s t → keeps t u → keeps s u };
}
