//! What a settle loads of the versions overwritten.
ghost use Rattle.std.specs.Prelude.{◌≡◌, true, ℕ};
ghost use Rattle.erm_cells.specs.Hands.{settled_claim, readers_kind};
ghost use Rattle.erm_machine.specs.Seat.{is_sealed};
ghost use Rattle.erm_machine.specs.Words.{is_session, without_bit};
ghost use Rattle.erm_readers.specs.Calls.{DidLoadReaders, IsAtReaders};
ghost use Rattle.erm_rule.specs.Hands.{IsKnown};
ghost use Rattle.erm_rule.specs.Steps.{Fits, Booked};
ghost use Rattle.erm_rule.specs.Views.{view, part_of};
ghost use Rattle.erm_rule.specs.Books.{book};

use erm_cells::load_readers;
use erm_kept::words::without_bit;
use erm_model::{RowLaw, Seat};
use erm_rule::{Pass, Table};

/// Loads the bits of the readers of the version overwritten that a settle has come to, which is in this cell. The answer is those of
/// the other seats.
pub fn readers<L: RowLaw>(t: &Table<L>, p: &mut Pass, who: Seat, cell: u32) -> u64
    requires fits { Fits t.now.words.shared.table_id p.old }
    requires known { IsKnown (view p.old) }
    requires session { is_session who ≡ true }
    requires sealed { is_sealed (part_of (view p.old) who).place ≡ true }
    requires at { IsAtReaders (part_of (view p.old) who).current (part_of (view p.old) who).task }
    requires cell { (settled_claim (part_of (view p.old) who)).cell ≡ cell }
    ensures fits { Fits t.now.words.shared.table_id p.new }
    ensures loaded { DidLoadReaders (view p.old) who result (view p.new) }
    ensures booked { (bits : ℕ) × (result ≡ without_bit bits who) × Booked L.law (book p.old) who (readers_kind (part_of (view p.old) who)) bits (book p.new) }
{
    let bits = load_readers(t, p, who, cell);
    without_bit(bits, who)
}
