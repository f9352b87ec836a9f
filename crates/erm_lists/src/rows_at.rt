//! Rows as of the place pinned, which a flusher reads.
ghost use Rattle.std.specs.Prelude.{◌≡◌, ◌<◌, IfErr, IfOk, IfSome, IsSome, None, Some, if◌then◌else◌, nat_lt};
ghost use Rattle.erm_core.specs.Cores.{core_of};
ghost use Rattle.erm_machine.specs.declared.limits.TheConstants.{FLUSH_SEAT};
ghost use Rattle.erm_model.specs.declared.limits.TheConstants.{OID_LIMIT};
ghost use Rattle.erm_lists.specs.Logs.{KeepsSessions, lists_log};
ghost use Rattle.erm_core_steps.specs.Pinned.{IsNewestRow, owner_below, row_below};
ghost use Rattle.erm_lists.specs.Stands.{Stands, lists_view};
ghost use Rattle.erm_world.specs.Log.{IsRowAsPinned, IsRowAt, IsUnwaited, IsWait};

use crate::Lists;
use erm_kept::words::{is_clear, owner_of};
use erm_machine::{FLUSH_SEAT, Kind, Version};
use erm_model::{Oid, Row, RowLaw, Stamp};
use erm_world::SeatWait;

// The row of the last version below the bound, after one more.
fn row_with(v: &Version, bound: Stamp, row: Option<Row>) -> Option<Row>
    ensures { result ≡ (if nat_lt v.now.words.stamp bound then Some v.now.words.row else row) }
{
    if v.words.stamp < bound {
        Some(v.words.row)
    } else {
        row
    }
}

// The row of the last of these versions whose stamp lies below the bound.
fn row_below(versions: &[Version], bound: Stamp) -> Option<Row>
    ensures { result ≡ row_below bound versions.now None }
{
    let mut row = None;
    for v in versions {
        row = row_with(v, bound, row);
    }
    row
}

impl<L: RowLaw> Lists<L> {
    // The place pinned.
    fn pin_stamp(&self) -> Stamp
        ensures { result ≡ ((core_of self.now.state).seats FLUSH_SEAT).current.begin }
    {
        self.state.seat(FLUSH_SEAT).current.begin
    }

    // Who owns an object's entry, where that one is sealed below the bound.
    fn owner_below(&self, oid: Oid, bound: Stamp) -> Option<SeatWait>
        ensures { result ≡ owner_below (core_of self.now.state) oid bound }
    {
        let owner = owner_of(self.state.word(FLUSH_SEAT, Kind::LoadEntry { oid }));
        let looks = Kind::LoadState { seat: owner, bound };
        let seen = self.state.word(FLUSH_SEAT, looks);
        if owner == 0 || is_clear(seen, bound) {
            None
        } else {
            Some(SeatWait { seat: owner, seen })
        }
    }

    // The row of an object's last version whose stamp lies below the bound.
    fn version_below(&self, oid: Oid, bound: Stamp) -> Option<Row>
        requires object { oid < OID_LIMIT }
        ensures { result ≡ row_below bound ((core_of self.now.state).shared.objects oid).versions None }
    {
        row_below(self.state.object(oid).versions.as_slice(), bound)
    }

    /// The row of an object as of the place pinned: the newest below it of all that commits. It waits where a transaction that
    /// isn't decided is sealed below the pin and has claimed the object.
    pub fn row_at(&mut self, oid: Oid) -> Result<Row, SeatWait>
        requires stands { Stands L.law self.old }
        requires object { oid < OID_LIMIT }
        requires pinned { IsSome (lists_log self.old).pinned }
        ensures stands { Stands L.law self.new }
        ensures keeps { KeepsSessions L.law self.old self.new }
        ensures same { lists_log self.new ≡ lists_log self.old }
        ensures row { IfOk result (λ row. IsRowAt (lists_log self.old) oid row) }
        ensures newest { IfOk result (λ row. IfSome (lists_log self.old).pinned (IsNewestRow (lists_view self.old) oid row)) }
        ensures lasts { IfOk result (λ row. (later : Lists L) → KeepsSessions L.law self.new later
            → IsRowAsPinned (lists_log self.old) (lists_log later) oid row) }
        ensures clear { IfOk result (λ row. IsUnwaited (lists_log self.old) oid) }
        ensures wait { IfErr result (λ wait. IsWait (lists_log self.old) oid wait) }
    {
        erm_log_list::blocks_are_a_log_list::<L>();
        erm_log_list::logs_go_on::<L>();
        erm_core_view::views_are_serializable::<L>();
        let pin = self.pin_stamp();
        if let Some(wait) = self.owner_below(oid, pin) {
            return Err(wait);
        }
        Ok(self.version_below(oid, pin).unwrap())
    }
}
