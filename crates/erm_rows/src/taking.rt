//! A claim's way to an object's entry.
ghost use Rattle.std.specs.Prelude.{◌≡◌, ◌<◌, true, length, IfErr, IfOk};
ghost use Rattle.erm_cells.specs.Calls.{DidTake, IsFoundHead, starts_anew};
ghost use Rattle.erm_entries.specs.Spelling.{entry_of, word_of};
ghost use Rattle.erm_machine.specs.Facts.{Holds};
ghost use Rattle.erm_machine.specs.Seat.{is_active};
ghost use Rattle.erm_machine.specs.Words.{head_of, is_session};
ghost use Rattle.erm_model.specs.declared.row_stop.RowStop.TheVariants.{Owned};
ghost use Rattle.erm_rows.specs.Active.{IsActive};
ghost use Rattle.erm_rows.specs.Claims.{DidFindFree, DidNotExchange, DidNotFind, DidNotTake, DidTakeEntry};
ghost use Rattle.erm_rule.specs.Books.{book};
ghost use Rattle.erm_rule.specs.Steps.{Fits, Booked};
ghost use Rattle.erm_rule.specs.Views.{view, part_of};
ghost use Rattle.erm_machine.specs.declared.event.Kind.TheVariants.{Claim};
ghost use Rattle.erm_rows.specs.Took.{TookEntry, TookFree, TookNoEntry, TookNotFree, TookOther};

use crate::active::Active;
use erm_cells::answer::Head;
use erm_cells::{find_head, load_walked};
use erm_entries::{Entry, claim};
use erm_machine::{CellWord, OBJECT_LIMIT, WRITE_LIMIT};
use erm_model::{Oid, RowLaw, RowStop, Seat, Stamp};
use erm_rule::{Pass, Table};

// Finds the head of an object's chain, to be claimed by a transaction that began at this stamp.
fn find_free<L: RowLaw>(
    t: &Table<L>,
    p: &mut Pass,
    who: Seat,
    oid: Oid,
    begin: Stamp,
) -> Result<Entry, RowStop>
    requires fits { Fits t.now.words.shared.table_id p.old }
    requires active { is_active (part_of (view p.old) who).place ≡ true }
    requires begin { (part_of (view p.old) who).current.begin ≡ begin }
    requires starts { starts_anew (part_of (view p.old) who).task ≡ true }
    requires object { oid < OBJECT_LIMIT }
    requires unclaimed { Holds (part_of (view p.old) who) oid → ⊥ }
    ensures fits { Fits t.now.words.shared.table_id p.new }
    ensures found { IfOk result (λ entry. DidFindFree (view p.old) who oid (word_of entry) (view p.new)) }
    ensures spelled { IfOk result (λ entry. entry_of (word_of entry) ≡ entry) }
    ensures refused { IfErr result (λ stop. DidNotFind (view p.old) who oid stop (view p.new)) }
    ensures took { IfOk result (λ entry. TookFree L.law who oid (word_of entry) (book p.old) (book p.new)) }
    ensures took_none { IfErr result (λ stop. TookNotFree L.law who oid stop (book p.old) (book p.new)) }
{
    match find_head(t, p, who, oid) {
        Head::Owned { entry } => Err(owned(&Entry::of(entry))),
        Head::Walked { entry, stamp } => {
            if begin <= stamp {
                return Err(RowStop::Newer { stamp });
            }
            Ok(Entry::of(entry))
        }
    }
}

// The refusal by the owner of an entry.
fn owned(entry: &Entry) -> RowStop
    ensures { result ≡ Owned entry.now.owner entry.now.number }
{
    RowStop::Owned {
        seat: entry.owner,
        number: entry.number,
    }
}

// Exchanges the entry of the head that was found, which nobody owned, for one that the own transaction of this number owns.
fn exchange<L: RowLaw>(
    t: &Table<L>,
    p: &mut Pass,
    who: Seat,
    oid: Oid,
    seen: &Entry,
    number: u32,
) -> Result<(), RowStop>
    requires fits { Fits t.now.words.shared.table_id p.old }
    requires session { is_session who ≡ true }
    requires active { is_active (part_of (view p.old) who).place ≡ true }
    requires number { (part_of (view p.old) who).current.number ≡ number }
    requires room { length (part_of (view p.old) who).current.writes < WRITE_LIMIT }
    requires object { oid < OBJECT_LIMIT }
    requires head { IsFoundHead (part_of (view p.old) who).task oid (word_of seen.now) }
    requires plain { word_of seen.now ≡ head_of (word_of seen.now) }
    requires unclaimed { Holds (part_of (view p.old) who) oid → ⊥ }
    ensures fits { Fits t.now.words.shared.table_id p.new }
    ensures taken { IfOk result (λ _. DidTake (view p.old) who oid (word_of seen.now) (view p.new)) }
    ensures lost { IfErr result (λ stop. DidNotExchange (view p.old) who oid (word_of seen.now) stop (view p.new)) }
    ensures took { IfOk result (λ _. Booked L.law (book p.old) who (Claim oid (word_of seen.now) number) (word_of seen.now) (book p.new)) }
    ensures took_other { IfErr result (λ stop. TookOther L.law who oid (word_of seen.now) number stop (book p.old) (book p.new)) }
{
    let found = match claim(t, p, who, oid, seen, number) {
        Ok(()) => return Ok(()),
        Err(found) => found,
    };
    if found.owner != 0 {
        return Err(owned(&found));
    }
    let stamp = load_walked(t, p, who, found.head, CellWord::Stamp);
    Err(RowStop::Newer { stamp })
}

/// Takes the entry of an object that the transaction hasn't claimed: claims the object by its newest version, whose cell is the answer
/// and whose stamp is below the begin stamp. The claim has no cell of its own yet. It is refused where as many objects are claimed as
/// may be, where another transaction owns the entry, and where the newest version isn't below the begin stamp; after the last two the
/// transaction is to end.
pub fn take_entry<L: RowLaw>(
    txn: &Active,
    t: &Table<L>,
    p: &mut Pass,
    who: Seat,
    oid: Oid,
) -> Result<u32, RowStop>
    requires fits { Fits t.now.words.shared.table_id p.old }
    requires session { is_session who ≡ true }
    requires active { is_active (part_of (view p.old) who).place ≡ true }
    requires kept { IsActive txn.now (part_of (view p.old) who) }
    requires starts { starts_anew (part_of (view p.old) who).task ≡ true }
    requires object { oid < OBJECT_LIMIT }
    requires unclaimed { Holds (part_of (view p.old) who) oid → ⊥ }
    ensures fits { Fits t.now.words.shared.table_id p.new }
    ensures taken { IfOk result (λ head. DidTakeEntry (view p.old) who oid head (view p.new)) }
    ensures room { IfOk result (λ head. length txn.now.claims.value.items < WRITE_LIMIT) }
    ensures refused { IfErr result (λ stop. DidNotTake (view p.old) who oid stop (view p.new)) }
    ensures kept { IfErr result (λ stop. IsActive txn.now (part_of (view p.new) who)) }
    ensures took { IfOk result (λ head. TookEntry L.law who oid head (book p.old) (book p.new)) }
    ensures took_none { IfErr result (λ stop. TookNoEntry L.law who oid stop (book p.old) (book p.new)) }
{
    if txn.claims.len() == WRITE_LIMIT {
        return Err(RowStop::WritesFull);
    }
    let seen = find_free(t, p, who, oid, txn.begin)?;
    exchange(t, p, who, oid, &seen, txn.number)?;
    Ok(seen.head)
}
