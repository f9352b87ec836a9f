//! The horizon of a cut: the least of the tail and of the begin words of seats that have begun.
ghost use Rattle.std.specs.Prelude.{◌≡◌, true};
ghost use Rattle.erm_cut.specs.Calls.{DidHorizon, IsClaimed};
ghost use Rattle.erm_machine.specs.Life as life_specs;
ghost use Rattle.erm_machine.specs.Seat.{is_active};
ghost use Rattle.erm_rule.specs.Books.{book};
ghost use Rattle.erm_rule.specs.Steps.{Fits};
ghost use Rattle.erm_rule.specs.Views.{view, part_of};
ghost use Rattle.erm_cut.specs.Took.{TookHorizon};
ghost use Rattle.erm_machine.specs.declared.limits.TheConstants.{ANNOUNCERS};

use erm_machine::{ANNOUNCERS, TailUse};
use erm_model::{RowLaw, Seat, Stamp};
use erm_rule::{Pass, Table, load_begin, load_tail};

/// Finds the horizon of a cut: loads the tail, and then the begin word of each seat, the own one too. The answer is the least of
/// them but for zeros.
pub fn horizon<L: RowLaw>(t: &Table<L>, p: &mut Pass, who: Seat) -> Stamp
    requires fits { Fits t.now.words.shared.table_id p.old }
    requires active { is_active (part_of (view p.old) who).place ≡ true }
    requires claimed { IsClaimed (part_of (view p.old) who).task }
    ensures fits { Fits t.now.words.shared.table_id p.new }
    ensures found { DidHorizon (view p.old) who result (view p.new) }
    ensures took { TookHorizon L.law who ANNOUNCERS result (book p.old) (book p.new) }
{
    let mut least = load_tail(t, p, who, TailUse::Horizon);
    for seat in 1..ANNOUNCERS {
        least = lower(least, load_begin(t, p, who, seat));
    }
    least
}

// The least of the numbers so far and of a begin word, where that isn't 0.
fn lower(least: Stamp, found: Stamp) -> Stamp
    ensures { result ≡ life_specs.lower least found }
{
    if found == 0 { least } else { least.min(found) }
}
