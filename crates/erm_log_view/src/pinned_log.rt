//! A log that others may go on writing, of which rows are read as of a pin.
ghost use Rattle.std.specs.Prelude.{◌≡◌, ◌<◌, ◌≤◌, ◌*◌, ℕ, List, None, Some, IfErr, IfOk, IsSome};
ghost use Rattle.erm_model.specs.declared.limits.TheConstants.{OID_LIMIT};
ghost use Rattle.erm_model.specs.RowTransaction.{RespectsRows};
ghost use Rattle.erm_world.specs.declared.gathered.SeatWait.{SeatWait as SeatWaitValue};
ghost use Rattle.erm_world.specs.Log.{IsRowAt, Log};
ghost use Rattle.erm_log_view.specs.Views.{IsPinned, IsUnpinned};

use crate::LogView;
use erm_model::{Oid, Row, Stamp};
use erm_world::SeatWait;

/// A log that others may go on writing, which may be pinned: rows are read as of the place pinned. No call takes memory. What a call does is
/// said by the log's own relations, and what that means for the log, as far as it is known, by the laws at the end.
pub trait PinnedLog: LogView {
    /// From one state to another it was pinned at this place.
    ghost pins: { Self → ℕ → Self → Type 0 };

    /// From one state to another this row of an object was read as of the pin.
    ghost reads: { Self → ℕ → List ℕ → Self → Type 0 };

    /// From one state to another it was met for whom a row of an object waits.
    ghost waits: { Self → ℕ → SeatWaitValue → Self → Type 0 };

    /// From one state to another its pin was ended.
    ghost unpins: { Self → Self → Type 0 };

    /// Pins the log's end: rows may be read as of it until it is unpinned. It is at or above each end of the log that was met.
    fn pin(&mut self) -> Stamp
        requires stands { Self.stands self.old }
        requires unpinned { IsUnpinned Self.knows self.old }
        ensures stands { Self.stands self.new }
        ensures keeps { Self.keeps self.old self.new }
        ensures pins { pins self.old result self.new };

    /// The row of an object as of the place pinned, where what is flushed comes up to it. Where the session that owns the object may be sealed below
    /// the pin, and isn't decided, it waits, and the answer names that session.
    fn row_at(&mut self, oid: Oid) -> Result<Row, SeatWait>
        requires stands { Self.stands self.old }
        requires object { oid < OID_LIMIT }
        requires pinned { IsPinned Self.knows self.old }
        ensures stands { Self.stands self.new }
        ensures keeps { Self.keeps self.old self.new }
        ensures reads { IfOk result (λ row. reads self.old oid row self.new) }
        ensures waits { IfErr result (λ wait. waits self.old oid wait self.new) };

    /// Ends the pin.
    fn unpin(&mut self)
        requires stands { Self.stands self.old }
        requires pinned { IsPinned Self.knows self.old }
        ensures stands { Self.stands self.new }
        ensures keeps { Self.keeps self.old self.new }
        ensures unpins { unpins self.old self.new };

    /// What a pin and reads as of it mean for the log, as far as it is known: it is pinned at its end, which is at or above the one that was
    /// known; a row that is read is that of the blocks gathered up to the pin; and reading changes nothing of it. This holds for all states,
    /// and the function does nothing.
    fn pins_are_known()
        ensures pinned { (s t : Self) (place : ℕ) (l : Log) → Self.stands s → Self.knows s l → pins s place t
            → (l.tail ≤ place) × Self.knows t (record l { tail = place; pinned = Some place }) }
        ensures row { (s t : Self) (oid : ℕ) (row : List ℕ) (l : Log) → Self.stands s → Self.knows s l → oid < OID_LIMIT → reads s oid row t
            → Self.knows t l × IsRowAt l oid row }
        ensures same { (s t : Self) (oid : ℕ) (wait : SeatWaitValue) (l : Log) → Self.stands s → Self.knows s l → waits s oid wait t → Self.knows t l }
        ensures unpinned { (s t : Self) (l : Log) → Self.stands s → Self.knows s l → unpins s t → Self.knows t (record l { pinned = None }) };

    /// The law of its rows looks at the rows of objects that there may be alone.
    fn respects_rows()
        ensures { RespectsRows Self.rows_law };
}
