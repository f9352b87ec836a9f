//! Rows as of the pin.
ghost use Rattle.std.specs.Prelude.{◌≡◌, ◌<◌, IfErr, IfOk};
ghost use Rattle.erm_entries.specs.Took.{TookWait};
ghost use Rattle.erm_machine.specs.declared.limits.TheConstants.{FLUSH_SEAT, OBJECT_LIMIT};
ghost use Rattle.erm_pin.specs.Pins.{HasLooked, IsPinned};
ghost use Rattle.erm_pin.specs.Took.{TookRow};
ghost use Rattle.erm_rule.specs.Books.{book};
ghost use Rattle.erm_rule.specs.Steps.{Fits};
ghost use Rattle.erm_rule.specs.Views.{view, part_of};
ghost use Rattle.erm_rule.specs.Went.{IsLoadStep, Went};

use crate::loading::load_pinned;
use erm_entries::answer::SeatWait;
use erm_entries::enter;
use erm_machine::FLUSH_SEAT;
use erm_model::{Oid, Row, RowLaw, Stamp};
use erm_readers::walk;
use erm_rule::{Pass, Table};

/// The row of an object as of the flush seat's pin, which is at this place: that of the version found from the head of its chain on. Err: a
/// transaction that isn't decided owns the object and is sealed below the pin, or is sealing.
pub fn row_at<L: RowLaw>(
    t: &Table<L>,
    p: &mut Pass,
    oid: Oid,
    place: Stamp,
) -> Result<Row, SeatWait>
    requires fits { Fits t.now.words.shared.table_id p.old }
    requires pinned { IsPinned (view p.old) }
    requires place { (part_of (view p.old) FLUSH_SEAT).current.begin ≡ place }
    requires object { oid < OBJECT_LIMIT }
    ensures fits { Fits t.now.words.shared.table_id p.new }
    ensures looked { HasLooked (view p.old) (view p.new) }
    ensures row { IfOk result (λ row. TookRow L.law oid place row (book p.old) (book p.new)) }
    ensures wait { IfErr result (λ wait. TookWait L.law FLUSH_SEAT oid place wait (book p.old) (book p.new)) }
    ensures loads { Went L.law FLUSH_SEAT IsLoadStep (book p.old) (book p.new) }
{
    let entry = enter(t, p, FLUSH_SEAT, oid, place)?;
    let found = walk(t, p, FLUSH_SEAT, entry.head, place);
    Ok(load_pinned(t, p, found.cell))
}
