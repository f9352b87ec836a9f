//! The flush seat's calls over a pass with all seats: they gather and clear the log, and read rows as of a pin.
ghost use Rattle.std.specs.Prelude.{◌≡◌, ◌<◌, ℕ, length, IfErr, IfOk, IfSome, None, Some};
ghost use Rattle.erm_core_steps.specs.Pinned.{IsNewestRow};
ghost use Rattle.erm_core_view.specs.Views.{view_of};
ghost use Rattle.erm_machine.specs.declared.limits.TheConstants.{FLUSH_SEAT, RING_WORDS};
ghost use Rattle.erm_model.specs.declared.limits.TheConstants.{OID_LIMIT};
ghost use Rattle.erm_rule.specs.Books.{book};
ghost use Rattle.erm_rule.specs.Steps.{Fits};
ghost use Rattle.erm_rule.specs.Went.{core_of};
ghost use Rattle.erm_table_world.specs.Flusher.{pin_in, task_in};
ghost use Rattle.erm_table_world.specs.Stands.{StandsAt};
ghost use Rattle.erm_table_world.specs.Turns.{IsTurned, LogBecomes, StandsForSome, book_log, gathered_in};
ghost use Rattle.erm_world.specs.Log.{Gathers, IsRowAt, IsUnwaited, IsWait};

use erm_model::{Oid, Row, RowLaw, Stamp};
use erm_rule::{Pass, Table};
use erm_world::{Gathered, SeatWait};

/// Gathers the words of the decided blocks from the place flushed on, up to the first that isn't decided or the log's end, into the
/// front of `words`, which has room for the ring. Places are in words.
pub fn gather<L: RowLaw>(t: &Table<L>, p: &mut Pass, words: &mut [u64]) -> Gathered
    requires fits { Fits t.now.words.shared.table_id p.old }
    requires stands { StandsForSome L.law (book p.old) }
    requires room { length words.old ≡ RING_WORDS }
    ensures fits { Fits t.now.words.shared.table_id p.new }
    ensures room { length words.new ≡ RING_WORDS }
    ensures turned { IsTurned L.law (book p.old) (book p.new) }
    ensures task { task_in (book p.new) ≡ task_in (book p.old) }
    ensures gathers { (sessions : ℕ) → StandsAt L.law sessions (book p.old)
        → Gathers result (book_log sessions (book p.old)) (book_log sessions (book p.new)) words.new }
{
    erm_log_list::blocks_are_a_log_list::<L>();
    erm_log_list::logs_go_on::<L>();
    erm_ring::gather(t, p, words)
}

/// Says that all words up to the end of what was gathered are synced: the place flushed moves there.
pub fn flushed_to<L: RowLaw>(t: &Table<L>, p: &mut Pass, end: Stamp)
    requires fits { Fits t.now.words.shared.table_id p.old }
    requires stands { StandsForSome L.law (book p.old) }
    requires end { end ≡ gathered_in (book p.old) }
    requires above { (core_of (book p.old)).shared.flushed < end }
    ensures fits { Fits t.now.words.shared.table_id p.new }
    ensures turned { IsTurned L.law (book p.old) (book p.new) }
    ensures task { task_in (book p.new) ≡ task_in (book p.old) }
    ensures flushed { LogBecomes L.law (book p.old) (λ log. record log { flushed = end }) (book p.new) }
{
    erm_log_list::blocks_are_a_log_list::<L>();
    erm_ring::clear(t, p, end);
}

/// Pins the log's end: rows may be read as of it until it is unpinned.
pub fn pin<L: RowLaw>(t: &Table<L>, p: &mut Pass) -> Stamp
    requires fits { Fits t.now.words.shared.table_id p.old }
    requires stands { StandsForSome L.law (book p.old) }
    requires unpinned { pin_in (book p.old) ≡ None }
    ensures fits { Fits t.now.words.shared.table_id p.new }
    ensures turned { IsTurned L.law (book p.old) (book p.new) }
    ensures place { result ≡ (core_of (book p.old)).shared.tail }
    ensures pinned { LogBecomes L.law (book p.old) (λ log. record log { tail = result; pinned = Some result }) (book p.new) }
{
    erm_pin::pin(t, p)
}

/// Ends the pin.
pub fn unpin<L: RowLaw>(t: &Table<L>, p: &mut Pass)
    requires fits { Fits t.now.words.shared.table_id p.old }
    requires stands { StandsForSome L.law (book p.old) }
    requires pinned { (place : ℕ) × (pin_in (book p.old) ≡ Some place) }
    ensures fits { Fits t.now.words.shared.table_id p.new }
    ensures turned { IsTurned L.law (book p.old) (book p.new) }
    ensures unpinned { LogBecomes L.law (book p.old) (λ log. record log { pinned = None }) (book p.new) }
{
    erm_pin::unpin(t, p);
}

// For whom a row as of the pin waits, as the world answers it.
fn wait_of(wait: erm_entries::answer::SeatWait) -> SeatWait
    ensures seat { result.seat ≡ wait.seat }
    ensures seen { result.seen ≡ wait.seen }
{
    SeatWait {
        seat: wait.seat,
        seen: wait.seen,
    }
}

/// The row of an object as of the pin, which is at this place: the newest below it of all that commits. It waits where a transaction that
/// isn't decided is sealed below the pin and has claimed the object.
pub fn row_at<L: RowLaw>(
    t: &Table<L>,
    p: &mut Pass,
    oid: Oid,
    place: Stamp,
) -> Result<Row, SeatWait>
    requires fits { Fits t.now.words.shared.table_id p.old }
    requires stands { StandsForSome L.law (book p.old) }
    requires pinned { pin_in (book p.old) ≡ Some place }
    requires object { oid < OID_LIMIT }
    ensures fits { Fits t.now.words.shared.table_id p.new }
    ensures turned { IsTurned L.law (book p.old) (book p.new) }
    ensures same { LogBecomes L.law (book p.old) (λ log. log) (book p.new) }
    ensures row { IfOk result (λ row. (sessions : ℕ) → StandsAt L.law sessions (book p.old) → IsRowAt (book_log sessions (book p.old)) oid row) }
    ensures newest { IfOk result (λ row. (sessions : ℕ) → StandsAt L.law sessions (book p.old) → IsNewestRow (view_of sessions (core_of (book p.new))) oid row place) }
    ensures clear { IfOk result (λ row. (sessions : ℕ) → StandsAt L.law sessions (book p.old) → IsUnwaited (book_log sessions (book p.old)) oid) }
    ensures wait { IfErr result (λ wait. (sessions : ℕ) → StandsAt L.law sessions (book p.old) → IsWait (book_log sessions (book p.old)) oid wait) }
{
    erm_log_list::blocks_are_a_log_list::<L>();
    erm_log_list::logs_go_on::<L>();
    erm_core_view::views_are_serializable::<L>();
    match erm_pin::row_at(t, p, oid, place) {
        Ok(row) => Ok(row),
        Err(wait) => Err(wait_of(wait)),
    }
}
