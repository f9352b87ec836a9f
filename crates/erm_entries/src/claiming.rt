//! A claim of an object, and its end where there is no cell for it.
ghost use Rattle.std.specs.Prelude.{◌≡◌, ◌<◌, true, length, IfOk, IfErr, ℕ};
ghost use Rattle.erm_cells.specs.Calls.{DidTake, IsFoundHead};
ghost use Rattle.erm_machine.specs.Seat.{is_active};
ghost use Rattle.erm_machine.specs.Words.{is_session};
ghost use Rattle.erm_rule.specs.Books.{IsAfter, book};
ghost use Rattle.erm_rule.specs.Steps.{Fits, Booked};
ghost use Rattle.erm_rule.specs.Views.{view, part_of};
ghost use Rattle.erm_entries.specs.Calls.{DidMeet};
ghost use Rattle.erm_entries.specs.Ends.{DidUnclaim, IsRefused};
ghost use Rattle.erm_entries.specs.Spelling.{word_of};
ghost use Rattle.erm_machine.specs.declared.event.Kind.TheVariants.{Claim, Install};

use crate::entries::Entry;
use erm_cells::take;
use erm_machine::{OBJECT_LIMIT, WRITE_LIMIT};
use erm_model::{Oid, RowLaw, Seat};
use erm_rule::{Pass, Table};

/// Claims an object whose head was found, for the own transaction of this number: by an exchange of the entry seen.
/// Err: the entry was another by then; its head is passed where nobody owns it, and else it is as if loaded.
pub fn claim<L: RowLaw>(
    t: &Table<L>,
    p: &mut Pass,
    who: Seat,
    oid: Oid,
    seen: &Entry,
    number: u32,
) -> Result<(), Entry>
    requires fits { Fits t.now.words.shared.table_id p.old }
    requires session { is_session who ≡ true }
    requires active { is_active (part_of (view p.old) who).place ≡ true }
    requires number { (part_of (view p.old) who).current.number ≡ number }
    requires room { length (part_of (view p.old) who).current.writes < WRITE_LIMIT }
    requires object { oid < OBJECT_LIMIT }
    requires head { IsFoundHead (part_of (view p.old) who).task oid (word_of seen.now) }
    ensures fits { Fits t.now.words.shared.table_id p.new }
    ensures claimed { IfOk result (λ _. DidTake (view p.old) who oid (word_of seen.now) (view p.new)) }
    ensures lost { IfErr result (λ entry. DidMeet (view p.old) who oid (word_of seen.now) entry (view p.new)) }
    ensures took { IfOk result (λ _. Booked L.law (book p.old) who (Claim oid (word_of seen.now) number) (word_of seen.now) (book p.new)) }
    ensures took_other { IfErr result (λ entry. Booked L.law (book p.old) who (Claim oid (word_of seen.now) number) (word_of entry) (book p.new)) }
{
    let word = seen.word();
    let found = take(t, p, who, oid, word, number);
    if found == word {
        Ok(())
    } else {
        Err(Entry::of(found))
    }
}

/// Gives up the newest claim, for which there was no cell: its entry gets its old head, without owner, and the claim is none.
pub fn unclaim<L: RowLaw>(t: &Table<L>, p: &mut Pass, who: Seat, oid: Oid, head: u32)
    requires fits { Fits t.now.words.shared.table_id p.old }
    requires active { is_active (part_of (view p.old) who).place ≡ true }
    requires object { oid < OBJECT_LIMIT }
    requires refused { IsRefused (part_of (view p.old) who) oid head }
    ensures fits { Fits t.now.words.shared.table_id p.new }
    ensures unclaimed { DidUnclaim (view p.old) who oid head (view p.new) }
    ensures goes { IsAfter (book p.old) (book p.new) }
    ensures booked { (found : ℕ) × Booked L.law (book p.old) who (Install oid head) found (book p.new) }
{
    erm_cells::install(t, p, who, oid, head);
}
