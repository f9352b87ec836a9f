//! A read.
ghost use Rattle.std.specs.Prelude.{◌≡◌, ◌<◌, true, false, length, IfErr, IfOk, None};
ghost use Rattle.erm_cells.specs.Calls.{starts_anew};
ghost use Rattle.erm_entries.specs.Calls.{DidWait};
ghost use Rattle.erm_machine.specs.Facts.{Holds};
ghost use Rattle.erm_machine.specs.Reading.{has_read};
ghost use Rattle.erm_machine.specs.Seat.{is_active};
ghost use Rattle.erm_machine.specs.Words.{is_session};
ghost use Rattle.erm_readers.specs.Walk.{IsWalking};
ghost use Rattle.erm_rows.specs.Active.{IsActive, closed_window};
ghost use Rattle.erm_rows.specs.Reads.{DidNotRead, DidRead, WasOwnerMet};
ghost use Rattle.erm_rule.specs.Books.{book, WasState};
ghost use Rattle.erm_rule.specs.Hands.{IsKnown, in_hand};
ghost use Rattle.erm_rule.specs.Steps.{Fits};
ghost use Rattle.erm_rule.specs.Views.{view, part_of};
ghost use Rattle.erm_entries.specs.Took.{TookWait};
ghost use Rattle.erm_rows.specs.Took.{begin_in, TookNotRead, TookRead, TookVersion};
ghost use Rattle.erm_rule.specs.Went.{IsStillStep, Went};

use crate::active::Active;
use erm_cells::load_row;
use erm_entries::answer::SeatWait;
use erm_entries::enter;
use erm_machine::{OBJECT_LIMIT, READ_LIMIT};
use erm_model::{Oid, Row, RowLaw, RowStop, Seat};
use erm_precommit::KeptRead;
use erm_readers::{rate_read, register, walk};
use erm_rule::{Pass, Table};

// Reads the version of an object that the transaction is to see, from its head on, which is in hand, in this cell: finds it,
// registers and rates it, and loads its row. Nothing is noted of other seats.
fn read_version<L: RowLaw>(
    txn: &mut Active,
    t: &Table<L>,
    p: &mut Pass,
    who: Seat,
    oid: Oid,
    head: u32,
) -> Row
    requires fits { Fits t.now.words.shared.table_id p.old }
    requires known { IsKnown (view p.old) }
    requires session { is_session who ≡ true }
    requires active { is_active (part_of (view p.old) who).place ≡ true }
    requires kept { IsActive txn.old (part_of (view p.old) who) }
    requires room { length txn.old.reads.value.items < READ_LIMIT }
    requires walks { IsWalking (part_of (view p.old) who).task head }
    requires object { (in_hand (part_of (view p.old) who).task).oid ≡ oid }
    requires unread { has_read oid (part_of (view p.old) who).current ≡ false }
    ensures fits { Fits t.now.words.shared.table_id p.new }
    ensures read { DidRead (view p.old) who oid result (view p.new) }
    ensures unnoted { (part_of (view p.new) who).clear ≡ (part_of (view p.old) who).clear }
    ensures kept { IsActive txn.new (part_of (view p.new) who) }
    ensures took { TookVersion L.law who (book p.old) (book p.new) }
{
    let found = walk(t, p, who, head, txn.begin);
    let cell = found.cell;
    register(t, p, who, cell);
    let succ = rate_read(t, p, who, cell);
    let row = load_row(t, p, who, cell);
    txn.add_read(KeptRead { oid, cell }, found.stamp, succ);
    row
}

// Reads an object, for which there is room.
fn read_object<L: RowLaw>(
    txn: &mut Active,
    t: &Table<L>,
    p: &mut Pass,
    who: Seat,
    oid: Oid,
) -> Result<Row, SeatWait>
    requires fits { Fits t.now.words.shared.table_id p.old }
    requires session { is_session who ≡ true }
    requires active { is_active (part_of (view p.old) who).place ≡ true }
    requires kept { IsActive txn.old (part_of (view p.old) who) }
    requires room { length txn.old.reads.value.items < READ_LIMIT }
    requires starts { starts_anew (part_of (view p.old) who).task ≡ true }
    requires object { oid < OBJECT_LIMIT }
    requires unread { has_read oid (part_of (view p.old) who).current ≡ false }
    requires unclaimed { Holds (part_of (view p.old) who) oid → ⊥ }
    ensures fits { Fits t.now.words.shared.table_id p.new }
    ensures kept { IsActive txn.new (part_of (view p.new) who) }
    ensures read { IfOk result (λ row. DidRead (view p.old) who oid row (view p.new)) }
    ensures waits { IfErr result (λ wait. DidWait (view p.old) who oid wait (view p.new)) }
    ensures met { IfErr result (λ wait. WasState (book p.old) wait.seat wait.seen (book p.new)) }
    ensures took { IfOk result (λ row. TookRead L.law who oid (book p.old) (book p.new)) }
    ensures took_wait { IfErr result (λ wait. TookWait L.law who oid (begin_in (book p.old) who) wait (book p.old) (book p.new)) }
{
    let entry = enter(t, p, who, oid, txn.begin)?;
    Ok(read_version(txn, t, p, who, oid, entry.head))
}

/// Reads an object that the transaction has neither read nor claimed: the row of the newest version below its begin stamp, which
/// counts as read from then on. While the transaction has begun, it stays that row (`erm_cells::reads_stand`). The caller keeps what it
/// reads, and what it writes: they may not be asked for again. A read is refused where the object's owner isn't clear for the begin
/// stamp, where as many versions are read as may be, and, once the version is registered, where the exclusion window known so far is
/// closed: then the transaction is to end.
pub fn read<L: RowLaw>(
    txn: &mut Active,
    t: &Table<L>,
    p: &mut Pass,
    who: Seat,
    oid: Oid,
) -> Result<Row, RowStop>
    requires fits { Fits t.now.words.shared.table_id p.old }
    requires session { is_session who ≡ true }
    requires active { is_active (part_of (view p.old) who).place ≡ true }
    requires kept { IsActive txn.old (part_of (view p.old) who) }
    requires starts { starts_anew (part_of (view p.old) who).task ≡ true }
    requires object { oid < OBJECT_LIMIT }
    requires unread { has_read oid (part_of (view p.old) who).current ≡ false }
    requires unclaimed { Holds (part_of (view p.old) who) oid → ⊥ }
    ensures fits { Fits t.now.words.shared.table_id p.new }
    ensures kept { IsActive txn.new (part_of (view p.new) who) }
    ensures read { IfOk result (λ row. DidRead (view p.old) who oid row (view p.new)) }
    ensures open { IfOk result (λ row. closed_window txn.new ≡ None) }
    ensures refused { IfErr result (λ stop. DidNotRead (view p.old) who oid stop (view p.new)) }
    ensures met { IfErr result (λ stop. WasOwnerMet (book p.old) stop (book p.new)) }
    ensures took { IfOk result (λ row. TookRead L.law who oid (book p.old) (book p.new)) }
    ensures took_none { IfErr result (λ stop. TookNotRead L.law who oid stop (book p.old) (book p.new)) }
    ensures still { Went L.law who IsStillStep (book p.old) (book p.new) }
{
    if txn.reads.len() == READ_LIMIT {
        return Err(RowStop::ReadsFull);
    }
    match read_object(txn, t, p, who, oid) {
        Err(SeatWait { seat, seen }) => Err(RowStop::NotYet { seat, seen }),
        Ok(row) => match txn.closed_window() {
            Some((succ, pred)) => Err(RowStop::Excluded { succ, pred }),
            None => Ok(row),
        },
    }
}
