//! A world's log, as a flusher sees it.
ghost use Rattle.std.specs.Prelude.{◌≡◌, ◌<◌, ◌≤◌, IfErr, IfOk, None, Some, length, IsSome};
ghost use Rattle.erm_model.specs.declared.limits.TheConstants.{OID_LIMIT, RING_WORDS};
ghost use Rattle.erm_model.specs.RowTransaction.{Law, RespectsRows};
ghost use Rattle.erm_world.specs.Log.{Gathers, IsLog, IsRowAsPinned, IsRowAt, IsUnwaited, IsWait, Log, gathered_to};

use crate::gathered::{Gathered, SeatWait};
use erm_model::{Oid, Row, Stamp};

/// A world's log, as a flusher sees it: it gathers the blocks that are decided, says how far all is synced, and reads rows as of a
/// pinned place. No call takes memory.
pub trait LogWorld {
    /// The law that its rows keep.
    ghost rows_law: { Law };

    /// What it means.
    ghost log: { Self → Log };

    /// It may be called.
    ghost log_stands: { Self → Type 0 };

    /// A later state, after calls of this trait.
    ghost keeps: { Self → Self → Type 0 };

    /// Gathers the words of the decided blocks from the place flushed on, up to the first that isn't decided or the log's end, into the
    /// front of `words`, which has room for the ring.
    fn gather(&mut self, words: &mut [u64]) -> Gathered
        requires stands { log_stands self.old }
        requires room { length words.old ≡ RING_WORDS }
        ensures stands { log_stands self.new }
        ensures keeps { keeps self.old self.new }
        ensures room { length words.new ≡ RING_WORDS }
        ensures gathers { Gathers result (log self.old) (log self.new) words.new };

    /// Says that all words up to the end of what was gathered are synced.
    fn flushed_to(&mut self, end: Stamp)
        requires stands { log_stands self.old }
        requires end { end ≡ gathered_to (log self.old) }
        requires above { (log self.old).flushed < end }
        ensures stands { log_stands self.new }
        ensures keeps { keeps self.old self.new }
        ensures flushed { log self.new ≡ record (log self.old) { flushed = end } };

    /// Pins the log's end: rows may be read as of it until it is unpinned. It is at or above each end of the log that was seen.
    fn pin(&mut self) -> Stamp
        requires stands { log_stands self.old }
        requires unpinned { (log self.old).pinned ≡ None }
        ensures stands { log_stands self.new }
        ensures keeps { keeps self.old self.new }
        ensures place { (log self.old).tail ≤ result }
        ensures pinned { log self.new ≡ record (log self.old) { tail = result; pinned = Some result } };

    /// The row of an object as of the place pinned. It waits just where a transaction that isn't decided is sealed below the pin and has
    /// claimed the object, which the answer names.
    fn row_at(&mut self, oid: Oid) -> Result<Row, SeatWait>
        requires stands { log_stands self.old }
        requires object { oid < OID_LIMIT }
        requires pinned { IsSome (log self.old).pinned }
        ensures stands { log_stands self.new }
        ensures keeps { keeps self.old self.new }
        ensures same { log self.new ≡ log self.old }
        ensures row { IfOk result (λ row. IsRowAt (log self.old) oid row) }
        ensures clear { IfOk result (λ row. IsUnwaited (log self.old) oid) }
        ensures lasts { IfOk result (λ row. (later : Self) → keeps self.new later → IsRowAsPinned (log self.old) (log later) oid row) }
        ensures wait { IfErr result (λ wait. IsWait (log self.old) oid wait) };

    /// Ends the pin.
    fn unpin(&mut self)
        requires stands { log_stands self.old }
        requires pinned { IsSome (log self.old).pinned }
        ensures stands { log_stands self.new }
        ensures keeps { keeps self.old self.new }
        ensures unpinned { log self.new ≡ record (log self.old) { pinned = None } };

    /// The law of its rows looks at the rows of objects that there may be alone.
    fn respects_rows()
        ensures { RespectsRows rows_law };

    /// What is so of every log.
    ghost is_log: { (w : Self) → log_stands w → IsLog rows_law.meets (log w) };

    /// Each state is kept by no call, and by calls one after another.
    ghost keeps_itself: { (w : Self) → keeps w w };

    ghost keeps_on: { (u v w : Self) → keeps u v → keeps v w → keeps u w };
}
