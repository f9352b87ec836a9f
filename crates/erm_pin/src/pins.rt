//! A pin of the log's end, and its end.
ghost use Rattle.std.specs.Prelude.{◌≡◌, ℕ};
ghost use Rattle.erm_machine.specs.declared.event.Kind.TheVariants.{StoreBegin};
ghost use Rattle.erm_machine.specs.declared.limits.TheConstants.{FLUSH_SEAT};
ghost use Rattle.erm_pin.specs.Pins.{DidUnpin, IsPinned, IsUnpinned};
ghost use Rattle.erm_rule.specs.Books.{book};
ghost use Rattle.erm_rule.specs.Steps.{Booked, Fits};
ghost use Rattle.erm_rule.specs.Views.{view, part_of};
ghost use Rattle.erm_seats.specs.Calls.{DidBegin};
ghost use Rattle.erm_seats.specs.Took.{TookBegin};

use erm_machine::FLUSH_SEAT;
use erm_model::{RowLaw, Stamp};
use erm_rule::{Pass, Table, store_begin};
use erm_seats::begin_steps;

/// Pins the log's end, a place in words: rows may be read as of it until the pin is ended.
pub fn pin<L: RowLaw>(t: &Table<L>, p: &mut Pass) -> Stamp
    requires fits { Fits t.now.words.shared.table_id p.old }
    requires unpinned { IsUnpinned (view p.old) }
    ensures fits { Fits t.now.words.shared.table_id p.new }
    ensures pinned { IsPinned (view p.new) }
    ensures place { (part_of (view p.new) FLUSH_SEAT).current.begin ≡ result }
    ensures begun { DidBegin (view p.old) FLUSH_SEAT result (view p.new) }
    ensures took { TookBegin L.law FLUSH_SEAT result (book p.old) (book p.new) }
{
    match begin_steps(t, p, FLUSH_SEAT) {
        Ok(place) => place,
        Err(_) => unreachable!(),
    }
}

/// Ends the pin.
pub fn unpin<L: RowLaw>(t: &Table<L>, p: &mut Pass)
    requires fits { Fits t.now.words.shared.table_id p.old }
    requires pinned { IsPinned (view p.old) }
    ensures fits { Fits t.now.words.shared.table_id p.new }
    ensures unpinned { DidUnpin (view p.old) (view p.new) }
    ensures took { (found : ℕ) × Booked L.law (book p.old) FLUSH_SEAT (StoreBegin 0) found (book p.new) }
{
    store_begin(t, p, FLUSH_SEAT, 0);
}
