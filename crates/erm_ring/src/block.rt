//! The words of the own block.
ghost use Rattle.std.specs.Prelude.{ℕ};
ghost use Rattle.erm_machine.specs.declared.event.Kind.TheVariants.{Decide};
ghost use Rattle.erm_ring.specs.Block.{DidDecide, DidFill, MayDecide, MayFill};
ghost use Rattle.erm_rule.specs.Hands.{IsKnown};
ghost use Rattle.erm_rule.specs.Steps.{Fits, Booked};
ghost use Rattle.erm_rule.specs.Views.{view, part_of};
ghost use Rattle.erm_ring.specs.Took.{IsFillStep};
ghost use Rattle.erm_rule.specs.Books.{book};
ghost use Rattle.erm_rule.specs.Went.{Went};

use erm_cells::store_ring;
use erm_model::{RowLaw, Seat, Stamp};
use erm_rule::{Pass, Table};

/// Stores the words of the own block behind its header, in order, once the settle has passed all versions. The block begins at the
/// own stamp.
pub fn fill<L: RowLaw>(t: &Table<L>, p: &mut Pass, who: Seat, at: Stamp, words: &[u64])
    requires fits { Fits t.now.words.shared.table_id p.old }
    requires known { IsKnown (view p.old) }
    requires may { MayFill at words.now (part_of (view p.old) who) }
    ensures fits { Fits t.now.words.shared.table_id p.new }
    ensures filled { DidFill (view p.old) who words.now (view p.new) }
    ensures fills { Went L.law who IsFillStep (book p.old) (book p.new) }
{
    for k in 0..words.len() {
        store_ring(t, p, who, at + 1 + k as u64, words[k]);
    }
}

/// Stores the header of the own block, whose other words are stored: the transaction is decided, a commit exactly where its
/// exclusion window is open, and the ring has its whole block.
pub fn decide<L: RowLaw>(t: &Table<L>, p: &mut Pass, who: Seat, at: Stamp, header: u64)
    requires fits { Fits t.now.words.shared.table_id p.old }
    requires may { MayDecide who at header (part_of (view p.old) who) }
    ensures fits { Fits t.now.words.shared.table_id p.new }
    ensures decided { DidDecide (view p.old) who header (view p.new) }
    ensures booked { (found : ℕ) × Booked L.law (book p.old) who (Decide at header) found (book p.new) }
{
    erm_cells::decide(t, p, who, at, header);
}
