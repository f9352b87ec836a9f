//! Steps on the counters.
ghost use Rattle.std.specs.Prelude.{IsSome};
ghost use Rattle.erm_machine.specs.declared.event.Kind.TheVariants.{LoadCounter, AddCounter};
ghost use Rattle.erm_rule.specs.Books.{book};
ghost use Rattle.erm_rule.specs.Steps.{Fits, Ready, ToldUnder, Booked};
ghost use Rattle.erm_rule.specs.Views.{view, part_in};

use erm_layout::Word;
use erm_machine::{Counter, Kind};
use erm_model::{RowLaw, Seat};
use erm_rule::{Change, Pass, Table, step};

/// Loads a counter.
pub fn load_counter<L: RowLaw>(t: &Table<L>, p: &mut Pass, who: Seat, counter: Counter) -> u64
    requires fits { Fits t.now.words.shared.table_id p.old }
    requires held { IsSome (part_in (view p.old) who) }
    requires ready { Ready (view p.old) who (LoadCounter counter) }
    ensures fits { Fits t.now.words.shared.table_id p.new }
    ensures told { ToldUnder L.law (view p.old) who (LoadCounter counter) result (view p.new) }
    ensures booked { Booked L.law (book p.old) who (LoadCounter counter) result (book p.new) }
{
    step(
        t,
        p,
        who,
        Kind::LoadCounter { counter },
        Word::Counter(counter),
        Change::Keep,
    )
}

/// Raises a counter by one. The answer is the number found.
pub fn add_counter<L: RowLaw>(t: &Table<L>, p: &mut Pass, who: Seat, counter: Counter) -> u64
    requires fits { Fits t.now.words.shared.table_id p.old }
    requires held { IsSome (part_in (view p.old) who) }
    requires ready { Ready (view p.old) who (AddCounter counter) }
    ensures fits { Fits t.now.words.shared.table_id p.new }
    ensures told { ToldUnder L.law (view p.old) who (AddCounter counter) result (view p.new) }
    ensures booked { Booked L.law (book p.old) who (AddCounter counter) result (book p.new) }
{
    step(
        t,
        p,
        who,
        Kind::AddCounter { counter },
        Word::Counter(counter),
        Change::Add(1),
    )
}
