//! What an end leaves at the versions read and overwritten.
ghost use Rattle.std.specs.Prelude.{◌≡◌, ◌||◌, true, ℕ};
ghost use Rattle.erm_cells.specs.Hands.{ended_claim, next_cleared, next_raised, clear_kind, raise_kind};
ghost use Rattle.erm_machine.specs.declared.attempt.Decision.TheVariants.{Commit};
ghost use Rattle.erm_machine.specs.Seat.{end_of, is_active, is_decided};
ghost use Rattle.erm_machine.specs.Words.{is_session};
ghost use Rattle.erm_readers.specs.Calls.{DidMark, DidRaise, DidUnregister, IsClearing, IsMarking, IsRaising};
ghost use Rattle.erm_rule.specs.Hands.{IsKnown};
ghost use Rattle.erm_rule.specs.Steps.{Fits, Booked};
ghost use Rattle.erm_rule.specs.Views.{view, part_of};
ghost use Rattle.erm_readers.specs.Took.{TookMarks};
ghost use Rattle.erm_rule.specs.Books.{book};

use erm_cells::{clear_reader, raise_reader, store_overwriter, store_succ};
use erm_model::{RowLaw, Seat, Stamp};
use erm_rule::{Pass, Table};

/// Raises the reader stamp of the next version read, which is in this cell, to the own stamp, which is this one.
pub fn raise<L: RowLaw>(t: &Table<L>, p: &mut Pass, who: Seat, cell: u32, stamp: Stamp)
    requires fits { Fits t.now.words.shared.table_id p.old }
    requires known { IsKnown (view p.old) }
    requires decided { is_decided (part_of (view p.old) who).place ≡ true }
    requires committed { (part_of (view p.old) who).current.decision ≡ Commit }
    requires raising { IsRaising (part_of (view p.old) who).current (part_of (view p.old) who).task }
    requires cell { (next_raised (part_of (view p.old) who)).cell ≡ cell }
    requires stamp { (part_of (view p.old) who).current.stamp ≡ stamp }
    ensures fits { Fits t.now.words.shared.table_id p.new }
    ensures raised { DidRaise (view p.old) who (view p.new) }
    ensures booked { (found : ℕ) × Booked L.law (book p.old) who (raise_kind (part_of (view p.old) who) stamp) found (book p.new) }
{
    raise_reader(t, p, who, cell, stamp);
}

/// Marks the version that the next claim to be installed overwrites, which is in this cell: stores the own successor stamp into it,
/// and then the own stamp, which are these.
pub fn mark_overwritten<L: RowLaw>(
    t: &Table<L>,
    p: &mut Pass,
    who: Seat,
    cell: u32,
    stamp: Stamp,
    succ: Stamp,
)
    requires fits { Fits t.now.words.shared.table_id p.old }
    requires known { IsKnown (view p.old) }
    requires decided { is_decided (part_of (view p.old) who).place ≡ true }
    requires committed { (part_of (view p.old) who).current.decision ≡ Commit }
    requires marking { IsMarking (part_of (view p.old) who).current (part_of (view p.old) who).task }
    requires cell { (ended_claim (part_of (view p.old) who)).cell ≡ cell }
    requires stamp { (part_of (view p.old) who).current.stamp ≡ stamp }
    requires succ { (part_of (view p.old) who).current.succ ≡ succ }
    ensures fits { Fits t.now.words.shared.table_id p.new }
    ensures marked { DidMark (view p.old) who (view p.new) }
    ensures took { TookMarks L.law who (ended_claim (part_of (view p.old) who)) stamp succ (book p.old) (book p.new) }
{
    store_succ(t, p, who, cell, succ);
    store_overwriter(t, p, who, cell, stamp);
}

/// Clears the own bit among the readers of the next version read, which is in this cell.
pub fn unregister<L: RowLaw>(t: &Table<L>, p: &mut Pass, who: Seat, cell: u32)
    requires fits { Fits t.now.words.shared.table_id p.old }
    requires known { IsKnown (view p.old) }
    requires session { is_session who ≡ true }
    requires ending { (is_decided (part_of (view p.old) who).place || is_active (part_of (view p.old) who).place) ≡ true }
    requires clearing { IsClearing (part_of (view p.old) who).current (end_of (part_of (view p.old) who).task) }
    requires cell { (next_cleared (part_of (view p.old) who)).cell ≡ cell }
    ensures fits { Fits t.now.words.shared.table_id p.new }
    ensures cleared { DidUnregister (view p.old) who (view p.new) }
    ensures booked { (found : ℕ) × Booked L.law (book p.old) who (clear_kind (part_of (view p.old) who)) found (book p.new) }
{
    clear_reader(t, p, who, cell);
}
