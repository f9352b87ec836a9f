//! The back word of a seat whose commit goes back.
ghost use Rattle.std.specs.Prelude.{◌≡◌, true};
ghost use Rattle.erm_ends.specs.Commits.{DidGoBack, MayGoBack};
ghost use Rattle.erm_ends.specs.Took.{TookBack};
ghost use Rattle.erm_machine.specs.Words.{is_session};
ghost use Rattle.erm_rule.specs.Books.{book};
ghost use Rattle.erm_rule.specs.Hands.{IsKnown};
ghost use Rattle.erm_rule.specs.Steps.{Fits};
ghost use Rattle.erm_rule.specs.Views.{view, part_of};

use erm_model::{RowLaw, Seat, Stamp};
use erm_rule::{Pass, Table, store_back};

/// Stores the stamp of a commit in the own back word, where its successor stamp is less.
pub(crate) fn go_back<L: RowLaw>(t: &Table<L>, p: &mut Pass, who: Seat, stamp: Stamp, succ: Stamp)
    requires fits { Fits t.now.words.shared.table_id p.old }
    requires known { IsKnown (view p.old) }
    requires session { is_session who ≡ true }
    requires may { MayGoBack stamp succ (part_of (view p.old) who) }
    ensures fits { Fits t.now.words.shared.table_id p.new }
    ensures back { DidGoBack (view p.old) who (view p.new) }
    ensures took { TookBack L.law who (part_of (view p.old) who).current (book p.old) (book p.new) }
{
    if succ < stamp {
        store_back(t, p, who, stamp);
    }
}
