//! Loads of entries, and a read's way to the head of an object's chain.
ghost use Rattle.std.specs.Prelude.{◌≡◌, ◌<◌, true, IfOk, IfErr};
ghost use Rattle.erm_cells.specs.Calls.{DidEnter, starts_anew};
ghost use Rattle.erm_machine.specs.declared.task.Task.TheVariants.{Cleared};
ghost use Rattle.erm_machine.specs.Facts.{Holds};
ghost use Rattle.erm_machine.specs.Seat.{is_active};
ghost use Rattle.erm_rule.specs.Books.{book, IsAfter, WasState};
ghost use Rattle.erm_rule.specs.Steps.{Fits, Booked};
ghost use Rattle.erm_rule.specs.Views.{view, part_of};
ghost use Rattle.erm_entries.specs.Calls.{DidReach, DidReload, DidWait, MayLoad};
ghost use Rattle.erm_entries.specs.Spelling.{entry_of, word_of};
ghost use Rattle.erm_entries.specs.Took.{TookReach, TookWait};
ghost use Rattle.erm_machine.specs.declared.event.Kind.TheVariants.{LoadEntry};

use crate::answer::SeatWait;
use crate::entries::Entry;
use erm_cells::load_entry;
use erm_machine::OBJECT_LIMIT;
use erm_model::{Oid, RowLaw, Seat, Stamp};
use erm_rule::{Pass, Table};
use erm_seats::answer::Look;
use erm_seats::look;

/// Loads an object's entry, from where a call may start, or once more after its owner was found clear.
pub fn load<L: RowLaw>(t: &Table<L>, p: &mut Pass, who: Seat, oid: Oid) -> Entry
    requires fits { Fits t.now.words.shared.table_id p.old }
    requires active { is_active (part_of (view p.old) who).place ≡ true }
    requires starts { MayLoad oid (part_of (view p.old) who).task }
    requires object { oid < OBJECT_LIMIT }
    ensures fits { Fits t.now.words.shared.table_id p.new }
    ensures spelled { entry_of (word_of result) ≡ result }
    ensures loaded { starts_anew (part_of (view p.old) who).task ≡ true
        → DidEnter (view p.old) who oid (word_of result) (view p.new) }
    ensures reloaded { (part_of (view p.old) who).task ≡ Cleared oid
        → DidReload (view p.old) who oid (word_of result) (view p.new) }
    ensures goes { IsAfter (book p.old) (book p.new) }
    ensures booked { Booked L.law (book p.old) who (LoadEntry oid) (word_of result) (book p.new) }
{
    let word = load_entry(t, p, who, oid);
    Entry::of(word)
}

/// Finds the head of the chain of an object that the own transaction, which began at this stamp, is to read. Where another seat
/// owns the entry, that one is looked at; where it is clear, the entry is loaded once more, and this second load is used, whoever
/// owns it then. Err: the owner isn't clear.
pub fn enter<L: RowLaw>(
    t: &Table<L>,
    p: &mut Pass,
    who: Seat,
    oid: Oid,
    begin: Stamp,
) -> Result<Entry, SeatWait>
    requires fits { Fits t.now.words.shared.table_id p.old }
    requires active { is_active (part_of (view p.old) who).place ≡ true }
    requires starts { starts_anew (part_of (view p.old) who).task ≡ true }
    requires begin { (part_of (view p.old) who).current.begin ≡ begin }
    requires object { oid < OBJECT_LIMIT }
    requires unclaimed { Holds (part_of (view p.old) who) oid → ⊥ }
    ensures fits { Fits t.now.words.shared.table_id p.new }
    ensures reached { IfOk result (λ entry. DidReach (view p.old) who oid (word_of entry) (view p.new)) }
    ensures spelled { IfOk result (λ entry. entry_of (word_of entry) ≡ entry) }
    ensures waits { IfErr result (λ wait. DidWait (view p.old) who oid wait (view p.new)) }
    ensures met { IfErr result (λ wait. WasState (book p.old) wait.seat wait.seen (book p.new)) }
    ensures took { IfOk result (λ entry. TookReach L.law who oid begin (word_of entry) (book p.old) (book p.new)) }
    ensures took_wait { IfErr result (λ wait. TookWait L.law who oid begin wait (book p.old) (book p.new)) }
{
    let first = load(t, p, who, oid);
    if first.owner == 0 {
        return Ok(first);
    }
    let found = look(t, p, who, first.owner, begin);
    match found {
        Look::Clear => Ok(load(t, p, who, oid)),
        Look::NotYet { seat, seen } => Err(SeatWait { seat, seen }),
    }
}
