ghost use Rattle.std.specs.Prelude.{◌≡◌, ◌<◌};
ghost use Rattle.erm_rule.specs.Steps.{Fits};
ghost use Rattle.erm_rule.specs.Views.{view, one_seat};
ghost use Rattle.erm_seats.specs.Race.{idle_part};

use crate::seats::{Table, open_two, opening_at};
use erm_cells::answer::Head;
use erm_cells::find_head;
use erm_kept::words::head_of;
use erm_machine::OBJECT_LIMIT;
use erm_model::Oid;
use erm_readers::{rate_read, register, unregister};
use erm_rule::{Opening, Pass};
use erm_seats::begin_steps;
use std::test::Fail;

// Session 1 begins, and reads the newest version of an object where it is below the begin stamp. Then it ends, and clears its bit.
// The answer is whether it read.
fn reads(t: &Table, mut pass: Pass, opening: &Opening, oid: Oid) -> bool
    requires fits { Fits t.now.words.shared.table_id pass }
    requires idle { view pass ≡ one_seat 1 (idle_part opening.now) }
    requires object { oid < OBJECT_LIMIT }
{
    let Ok(begin) = begin_steps(t, &mut pass, 1) else {
        return false;
    };
    let Head::Walked { entry, stamp } = find_head(t, &mut pass, 1, oid) else {
        return false;
    };
    if stamp >= begin {
        return false;
    }
    let cell = head_of(entry);
    register(t, &mut pass, 1, cell);
    rate_read(t, &mut pass, 1, cell);
    unregister(t, &mut pass, 1, cell);
    true
}

#[test]
fn reads_a_row_of_the_opening(rt: HostRuntime) -> Result<(), Fail> {
    let opening = opening_at(rt.alloc(), 13)?;
    let (table, _rest, first, _second) = open_two(rt.alloc(), &opening)?;
    assert!(rt; reads(&table, first, &opening, 5));
    Ok(())
}
