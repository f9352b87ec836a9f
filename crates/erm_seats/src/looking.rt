//! A look at another seat.
ghost use Rattle.std.specs.Prelude.{◌≡◌, ◌≢◌, ◌≤◌, true, false};
ghost use Rattle.erm_machine.specs.Seat.{is_vacant};
ghost use Rattle.erm_machine.specs.Words.{is_clear, is_seat};
ghost use Rattle.erm_rule.specs.Books.{book};
ghost use Rattle.erm_rule.specs.Steps.{Fits};
ghost use Rattle.erm_rule.specs.Views.{view, part_of};
ghost use Rattle.erm_seats.specs.Calls.{DidLook, OnClear, StaysClear, WasNotYet};
ghost use Rattle.erm_seats.specs.Took.{TookLook};

use crate::answer::Look;
use erm_model::{RowLaw, Seat, Stamp};
use erm_rule::{Pass, Table, load_state};

/// Looks at another seat with a bound that is at most a tail that the own seat has seen.
pub fn look<L: RowLaw>(t: &Table<L>, p: &mut Pass, who: Seat, seat: Seat, bound: Stamp) -> Look
    requires fits { Fits t.now.words.shared.table_id p.old }
    requires taken { is_vacant (part_of (view p.old) who).place ≡ false }
    requires other { seat ≢ who }
    requires seat { is_seat seat ≡ true }
    requires bound { bound ≤ (part_of (view p.old) who).seen }
    ensures fits { Fits t.now.words.shared.table_id p.new }
    ensures looked { DidLook (view p.old) who seat bound result (view p.new) }
    ensures stays { OnClear result (StaysClear who seat bound (part_of (view p.new) who).clear) }
    ensures met { WasNotYet (book p.old) result (book p.new) }
    ensures took { TookLook L.law who seat bound result (book p.old) (book p.new) }
{
    erm_rule::notes_hold();
    let seen = load_state(t, p, who, seat, bound);
    if is_clear_for(seen, bound) {
        Look::Clear
    } else {
        Look::NotYet { seat, seen }
    }
}

// A seat with this state word is clear for the bound: it isn't sealing, and no stamp of it lies below.
fn is_clear_for(state: Stamp, bound: Stamp) -> bool
    ensures { result ≡ is_clear state bound }
{
    state == 0 || (state != 1 && bound <= state)
}
