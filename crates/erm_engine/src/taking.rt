//! A pass takes in those of sessions.
ghost use Rattle.std.specs.Prelude.{◌≡◌, map};
ghost use Rattle.erm_engine.specs.Closed.{AreDone, AllRest, MayBeTaken};
ghost use Rattle.erm_engine.specs.Taken.{HasTaken};
ghost use Rattle.erm_ring.specs.Turns.{MayGather};
ghost use Rattle.erm_rule.specs.Books.{book};
ghost use Rattle.erm_rule.specs.Steps.{Fits};
ghost use Rattle.erm_rule.specs.Views.{MayJoin, view};

use erm_model::RowLaw;
use erm_rule::{Pass, Table, join};
use erm_shared_session::TableSession;

// Takes the passes of sessions, which are given up, into that of the flush seat.
pub(crate) fn take_sessions<L: RowLaw>(t: &Table<L>, p: &mut Pass, sessions: Vec<TableSession<L>>)
    requires fits { Fits t.now.words.shared.table_id p.old }
    requires joins { MayJoin (view p.old) }
    requires gathers { MayGather (view p.old) }
    requires stand { AreDone L.law t.now sessions.items }
    requires rests { AllRest sessions.items }
    ensures fits { Fits t.now.words.shared.table_id p.new }
    ensures taken { HasTaken (map (λ s. book s.pass) sessions.items) (book p.old) (book p.new) }
{
    let mut left = sessions.into_iter();
    while let Some(session) = left.next() {
        session.join_into(t, p);
    }
    left.destroy_empty();
}

// Takes in passes of single seats.
pub(crate) fn take_passes<L: RowLaw>(t: &Table<L>, p: &mut Pass, passes: Vec<Pass>)
    requires fits { Fits t.now.words.shared.table_id p.old }
    requires joins { MayJoin (view p.old) }
    requires joined { MayBeTaken t.now.words.shared.table_id passes.items }
    ensures fits { Fits t.now.words.shared.table_id p.new }
    ensures taken { HasTaken (map book passes.items) (book p.old) (book p.new) }
{
    for pass in passes {
        join(t, p, pass);
    }
}
