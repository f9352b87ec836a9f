ghost use Rattle.std.specs.Prelude.{◌≡◌};
ghost use Rattle.erm_rule.specs.Steps.{Fits};
ghost use Rattle.erm_rule.specs.Views.{view, one_seat};
ghost use Rattle.erm_seats.specs.Race.{idle_part};

use crate::seats::{Table, open_two, opening_at};
use erm_cells::answer::Head;
use erm_cells::find_head;
use erm_entries::answer::SeatWait;
use erm_entries::{Entry, claim, enter};
use erm_rule::{Opening, Pass};
use erm_seats::begin_steps;
use std::test::Fail;

#[test]
fn spells_an_entry(rt: HostRuntime) -> Result<(), Fail> {
    let entry = Entry {
        head: 5,
        owner: 1,
        number: 2,
    };
    assert_eq!(rt; entry.word(), 8606711813);
    assert_eq!(rt; Entry::of(8606711813), entry);
    Ok(())
}

// Session 1 begins, and claims object 5 where it finds the head of the object's chain.
fn claim_first(t: &Table, mut pass: Pass, opening: &Opening) -> Option<Result<(), Entry>>
    requires fits { Fits t.now.words.shared.table_id pass }
    requires idle { view pass ≡ one_seat 1 (idle_part opening.now) }
{
    let begin = begin_steps(t, &mut pass, 1).ok()?;
    let Head::Walked { entry, stamp } = find_head(t, &mut pass, 1, 5) else {
        return None;
    };
    if stamp >= begin {
        return None;
    }
    Some(claim(t, &mut pass, 1, 5, &Entry::of(entry), 1))
}

// Session 2 begins, and enters object 5.
fn enter_then(t: &Table, mut pass: Pass, opening: &Opening) -> Option<Result<Entry, SeatWait>>
    requires fits { Fits t.now.words.shared.table_id pass }
    requires idle { view pass ≡ one_seat 2 (idle_part opening.now) }
{
    let begin = begin_steps(t, &mut pass, 2).ok()?;
    Some(enter(t, &mut pass, 2, 5, begin))
}

#[test]
fn enters_a_claimed_object(rt: HostRuntime) -> Result<(), Fail> {
    let opening = opening_at(rt.alloc(), 13)?;
    let (table, _rest, first, second) = open_two(rt.alloc(), &opening)?;
    let claimed = claim_first(&table, first, &opening);
    let entered = enter_then(&table, second, &opening);
    let entry = Entry {
        head: 5,
        owner: 1,
        number: 1,
    };
    assert_eq!(rt; claimed, Some(Ok(())));
    assert_eq!(rt; entered, Some(Ok(entry)));
    Ok(())
}
