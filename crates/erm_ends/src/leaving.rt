//! The last steps of a decided transaction.
ghost use Rattle.std.specs.Prelude.{◌≡◌, true};
ghost use Rattle.erm_ends.specs.Ends.{DidLeave, MayLeave};
ghost use Rattle.erm_machine.specs.Words.{is_session};
ghost use Rattle.erm_rule.specs.Steps.{Fits};
ghost use Rattle.erm_rule.specs.Views.{view, part_of};
ghost use Rattle.erm_rule.specs.Books.{book};
ghost use Rattle.erm_ends.specs.Took.{TookLeave};

use erm_model::{RowLaw, Seat};
use erm_rule::{Pass, Table, store_begin, store_state};

/// Clears the own begin word, and then the own state word: the seat is idle, and its transaction over.
pub(crate) fn leave<L: RowLaw>(t: &Table<L>, p: &mut Pass, who: Seat)
    requires fits { Fits t.now.words.shared.table_id p.old }
    requires session { is_session who ≡ true }
    requires may { MayLeave (part_of (view p.old) who) }
    ensures fits { Fits t.now.words.shared.table_id p.new }
    ensures left { DidLeave (view p.old) who (view p.new) }
    ensures took { TookLeave L.law who (book p.old) (book p.new) }
{
    store_begin(t, p, who, 0);
    store_state(t, p, who, 0);
}
