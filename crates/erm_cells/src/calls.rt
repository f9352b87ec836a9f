//! Calls of several steps: find the head of an object's chain, and take its entry.
ghost use Rattle.std.specs.Prelude.{◌≡◌, ◌≢◌, ◌<◌, true, length};
ghost use Rattle.erm_cells.specs.Calls.{DidFind, DidLose, DidTake, IsFoundHead, starts_anew};
ghost use Rattle.erm_machine.specs.Seat.{is_active};
ghost use Rattle.erm_machine.specs.Words.{is_session};
ghost use Rattle.erm_rule.specs.Books.{book};
ghost use Rattle.erm_rule.specs.Steps.{Fits, Booked};
ghost use Rattle.erm_rule.specs.Views.{view, part_of};
ghost use Rattle.erm_cells.specs.Took.{TookFind};
ghost use Rattle.erm_machine.specs.declared.event.Kind.TheVariants.{Claim};

use crate::answer::Head;
use crate::entries::{claim_entry, load_entry};
use crate::walks::load_walked;
use erm_kept::words::{head_of, owner_of};
use erm_machine::{CellWord, OBJECT_LIMIT, WRITE_LIMIT};
use erm_model::{Oid, RowLaw, Seat};
use erm_rule::{Pass, Table};

/// Finds the head of an object's chain: loads its entry and, where nobody owns it, the stamp of its head.
pub fn find_head<L: RowLaw>(t: &Table<L>, p: &mut Pass, who: Seat, oid: Oid) -> Head
    requires fits { Fits t.now.words.shared.table_id p.old }
    requires active { is_active (part_of (view p.old) who).place ≡ true }
    requires starts { starts_anew (part_of (view p.old) who).task ≡ true }
    requires object { oid < OBJECT_LIMIT }
    ensures fits { Fits t.now.words.shared.table_id p.new }
    ensures found { DidFind (view p.old) who oid result (view p.new) }
    ensures took { TookFind L.law who oid result (book p.old) (book p.new) }
{
    let entry = load_entry(t, p, who, oid);
    if owner_of(entry) != 0 {
        return Head::Owned { entry };
    }
    let stamp = load_walked(t, p, who, head_of(entry), CellWord::Stamp);
    Head::Walked { entry, stamp }
}

/// Takes an entry whose head was found, by an exchange. The answer is the entry found: where it isn't the one seen, its head, which
/// became that since, is passed where nobody owns it, and else it is as if loaded.
pub fn take<L: RowLaw>(
    t: &Table<L>,
    p: &mut Pass,
    who: Seat,
    oid: Oid,
    seen: u64,
    number: u32,
) -> u64
    requires fits { Fits t.now.words.shared.table_id p.old }
    requires session { is_session who ≡ true }
    requires active { is_active (part_of (view p.old) who).place ≡ true }
    requires number { (part_of (view p.old) who).current.number ≡ number }
    requires room { length (part_of (view p.old) who).current.writes < WRITE_LIMIT }
    requires object { oid < OBJECT_LIMIT }
    requires head { IsFoundHead (part_of (view p.old) who).task oid seen }
    ensures fits { Fits t.now.words.shared.table_id p.new }
    ensures taken { result ≡ seen → DidTake (view p.old) who oid seen (view p.new) }
    ensures lost { result ≢ seen → DidLose (view p.old) who oid seen result (view p.new) }
    ensures booked { Booked L.law (book p.old) who (Claim oid seen number) result (book p.new) }
{
    claim_entry(t, p, who, oid, seen, number)
}
