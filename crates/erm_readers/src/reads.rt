//! A read of the version found: the own bit is set, and then its overwriter counts.
ghost use Rattle.std.specs.Prelude.{◌≡◌, ◌<◌, true, length, ℕ};
ghost use Rattle.erm_machine.specs.Seat.{is_active};
ghost use Rattle.erm_machine.specs.Words.{is_session};
ghost use Rattle.erm_readers.specs.Calls.{DidRateRead, DidRegister, IsRegistered, IsToBeRead, hand_of};
ghost use Rattle.erm_rule.specs.Hands.{IsKnown};
ghost use Rattle.erm_rule.specs.Steps.{Fits, Booked};
ghost use Rattle.erm_rule.specs.Views.{view, part_of};
ghost use Rattle.erm_cells.specs.Hands.{reader_kind};
ghost use Rattle.erm_rule.specs.Books.{book};
ghost use Rattle.erm_readers.specs.Took.{TookRate};

use erm_cells::{load_stamp, set_reader};
use erm_machine::{CellWord, READ_LIMIT};
use erm_model::{RowLaw, Seat, Stamp};
use erm_rule::{Pass, Table};

/// Registers the version found, which is in this cell: sets the own bit among its readers. From then on it counts as read.
pub fn register<L: RowLaw>(t: &Table<L>, p: &mut Pass, who: Seat, cell: u32)
    requires fits { Fits t.now.words.shared.table_id p.old }
    requires known { IsKnown (view p.old) }
    requires session { is_session who ≡ true }
    requires active { is_active (part_of (view p.old) who).place ≡ true }
    requires room { length (part_of (view p.old) who).current.reads < READ_LIMIT }
    requires found { IsToBeRead (part_of (view p.old) who).current (part_of (view p.old) who).task cell }
    ensures fits { Fits t.now.words.shared.table_id p.new }
    ensures registered { DidRegister (view p.old) who (view p.new) }
    ensures booked { (found : ℕ) × Booked L.law (book p.old) who (reader_kind (part_of (view p.old) who)) found (book p.new) }
{
    set_reader(t, p, who, cell);
}

/// Rates the version registered, which is in this cell: loads its overwriter's stamp and, where it has one, that one's successor
/// stamp, which is the answer.
pub fn rate_read<L: RowLaw>(t: &Table<L>, p: &mut Pass, who: Seat, cell: u32) -> Option<Stamp>
    requires fits { Fits t.now.words.shared.table_id p.old }
    requires known { IsKnown (view p.old) }
    requires active { is_active (part_of (view p.old) who).place ≡ true }
    requires registered { IsRegistered (part_of (view p.old) who).task cell }
    ensures fits { Fits t.now.words.shared.table_id p.new }
    ensures rated { DidRateRead (view p.old) who result (view p.new) }
    ensures took { TookRate L.law who (hand_of (view p.old) who) result (book p.old) (book p.new) }
{
    let overwriter = load_stamp(t, p, who, cell, CellWord::Overwriter);
    if overwriter == 0 {
        return None;
    }
    let succ = load_stamp(t, p, who, cell, CellWord::OverwriterSucc);
    Some(succ)
}
