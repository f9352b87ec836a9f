//! A settle passes a version read: an owner of its object below the own stamp has to be over, and then what overwrote it counts.
ghost use Rattle.std.specs.Prelude.{◌≡◌, ◌<◌, ◌+◌, ◌&&◌, ℕ, true, false, length, nat_lt, IfErr, IfSome, IfNone, OnOk, MatchOption};
ghost use Rattle.erm_machine.specs.declared.task.Task.TheVariants.{ReadClear, ReadOvertaken, ReadOwned, Settles};
ghost use Rattle.erm_machine.specs.Words.{owner_of};
ghost use Rattle.erm_rule.specs.Books.{book};
ghost use Rattle.erm_rule.specs.Steps.{Fits};
ghost use Rattle.erm_rule.specs.Views.{view};
ghost use Rattle.erm_precommit.specs.Settle.{has_other_owner, task_of, OwnsRead, Stands, StopsAt, WaitsForSeat, WentOn};
ghost use Rattle.erm_rule.specs.Went.{IsLoadStep, Went};
ghost use Rattle.erm_precommit.specs.Took.{TookSeatWait};

use crate::answer::SeatWait;
use crate::pre::Pre;
use erm_cells::{load_entry, load_stamp};
use erm_kept::words::{head_of, owner_of};
use erm_machine::CellWord;
use erm_model::{RowLaw, Seat, Stamp};
use erm_rule::{Pass, Table};
use erm_seats::answer::Look;
use erm_seats::look;

// The other seat that owns an entry whose head is this cell.
fn other_owner(entry: u64, cell: u32, who: Seat) -> Option<Seat>
    ensures { MatchOption result (has_other_owner entry cell who ≡ false) (λ owner. (has_other_owner entry cell who ≡ true) × (owner ≡ owner_of entry)) }
{
    let owner = owner_of(entry);
    if head_of(entry) == cell && owner != 0 && owner != who {
        Some(owner)
    } else {
        None
    }
}

// Loads the entry of the version read at this place. Where the version is the head, and another seat owns the entry, that seat is to
// be looked at.
fn load_head<L: RowLaw>(
    pre: &Pre,
    t: &Table<L>,
    p: &mut Pass,
    who: Seat,
    place: usize,
) -> Option<Seat>
    requires fits { Fits t.now.words.shared.table_id p.old }
    requires stands { Stands pre.now (view p.old) who }
    requires task { task_of (view p.old) who ≡ Settles place 0 }
    requires place { place < length pre.now.reads.value.items }
    ensures fits { Fits t.now.words.shared.table_id p.new }
    ensures went { WentOn (view p.old) who (view p.new) }
    ensures stands { Stands pre.now (view p.new) who }
    ensures owned { IfSome result (λ owner. task_of (view p.new) who ≡ ReadOwned place owner) }
    ensures owner { IfSome result (λ owner. OwnsRead (view p.old) who place owner) }
    ensures clear { IfNone result (task_of (view p.new) who ≡ ReadClear place) }
    ensures loads { Went L.law who IsLoadStep (book p.old) (book p.new) }
{
    let read = pre.read_at(place);
    let entry = load_entry(t, p, who, read.oid);
    other_owner(entry, read.cell, who)
}

// Looks at the owner of a version read.
fn look_at_owner<L: RowLaw>(
    pre: &Pre,
    t: &Table<L>,
    p: &mut Pass,
    who: Seat,
    place: usize,
    owner: Seat,
) -> Result<(), SeatWait>
    requires fits { Fits t.now.words.shared.table_id p.old }
    requires stands { Stands pre.now (view p.old) who }
    requires task { task_of (view p.old) who ≡ ReadOwned place owner }
    ensures fits { Fits t.now.words.shared.table_id p.new }
    ensures went { WentOn (view p.old) who (view p.new) }
    ensures stands { Stands pre.now (view p.new) who }
    ensures clear { OnOk result (task_of (view p.new) who ≡ ReadClear place) }
    ensures stops { IfErr result (λ wait. StopsAt (view p.old) who owner wait (view p.new)) }
    ensures loads { Went L.law who IsLoadStep (book p.old) (book p.new) }
    ensures took_wait { IfErr result (λ wait. TookSeatWait L.law who wait.seat wait.seen (book p.old) (book p.new)) }
{
    match look(t, p, who, owner, pre.stamp) {
        Look::Clear => Ok(()),
        Look::NotYet { seat, seen } => Err(SeatWait { seat, seen }),
    }
}

// Passes the owner of the version read at this place, if it is another seat and the version the head.
fn pass_owner<L: RowLaw>(
    pre: &Pre,
    t: &Table<L>,
    p: &mut Pass,
    who: Seat,
    place: usize,
) -> Result<(), SeatWait>
    requires fits { Fits t.now.words.shared.table_id p.old }
    requires stands { Stands pre.now (view p.old) who }
    requires task { task_of (view p.old) who ≡ Settles place 0 }
    requires place { place < length pre.now.reads.value.items }
    ensures fits { Fits t.now.words.shared.table_id p.new }
    ensures went { WentOn (view p.old) who (view p.new) }
    ensures stands { Stands pre.now (view p.new) who }
    ensures clear { OnOk result (task_of (view p.new) who ≡ ReadClear place) }
    ensures waits { IfErr result (λ wait. WaitsForSeat (view p.old) who wait.seat wait.seen (view p.new)) }
    ensures loads { Went L.law who IsLoadStep (book p.old) (book p.new) }
    ensures took_wait { IfErr result (λ wait. TookSeatWait L.law who wait.seat wait.seen (book p.old) (book p.new)) }
{
    match load_head(pre, t, p, who, place) {
        Some(owner) => look_at_owner(pre, t, p, who, place, owner),
        None => Ok(()),
    }
}

// Whether an overwriter with this stamp counts for a transaction with that one: it isn't 0, and below.
fn counts(overwriter: Stamp, stamp: Stamp) -> bool
    ensures { result ≡ ((nat_lt 0 overwriter) && (nat_lt overwriter stamp)) }
{
    0 < overwriter && overwriter < stamp
}

// Loads the overwriter's stamp of the version read at this place, and answers whether it counts.
fn load_overwriter<L: RowLaw>(
    pre: &Pre,
    t: &Table<L>,
    p: &mut Pass,
    who: Seat,
    place: usize,
) -> bool
    requires fits { Fits t.now.words.shared.table_id p.old }
    requires stands { Stands pre.now (view p.old) who }
    requires task { task_of (view p.old) who ≡ ReadClear place }
    ensures fits { Fits t.now.words.shared.table_id p.new }
    ensures went { WentOn (view p.old) who (view p.new) }
    ensures stands { Stands pre.now (view p.new) who }
    ensures counts { result ≡ true → (overwriter : ℕ) × (task_of (view p.new) who ≡ ReadOvertaken place overwriter) }
    ensures none { result ≡ false → task_of (view p.new) who ≡ Settles (place + 1) 0 }
    ensures loads { Went L.law who IsLoadStep (book p.old) (book p.new) }
{
    let read = pre.read_at(place);
    let overwriter = load_stamp(t, p, who, read.cell, CellWord::Overwriter);
    counts(overwriter, pre.stamp)
}

// Loads the overwriter's successor stamp of the version read at this place, which counts.
fn load_succ<L: RowLaw>(pre: &mut Pre, t: &Table<L>, p: &mut Pass, who: Seat, place: usize)
    requires fits { Fits t.now.words.shared.table_id p.old }
    requires stands { Stands pre.old (view p.old) who }
    requires task { (overwriter : ℕ) × (task_of (view p.old) who ≡ ReadOvertaken place overwriter) }
    ensures fits { Fits t.now.words.shared.table_id p.new }
    ensures went { WentOn (view p.old) who (view p.new) }
    ensures stands { Stands pre.new (view p.new) who }
    ensures passed { task_of (view p.new) who ≡ Settles (place + 1) 0 }
    ensures loads { Went L.law who IsLoadStep (book p.old) (book p.new) }
{
    let read = pre.read_at(place);
    let succ = load_stamp(t, p, who, read.cell, CellWord::OverwriterSucc);
    pre.find_succ(succ);
}

// What overwrote the version read at this place below the own stamp counts for the successor stamp.
fn rate_read<L: RowLaw>(pre: &mut Pre, t: &Table<L>, p: &mut Pass, who: Seat, place: usize)
    requires fits { Fits t.now.words.shared.table_id p.old }
    requires stands { Stands pre.old (view p.old) who }
    requires task { task_of (view p.old) who ≡ ReadClear place }
    ensures fits { Fits t.now.words.shared.table_id p.new }
    ensures went { WentOn (view p.old) who (view p.new) }
    ensures stands { Stands pre.new (view p.new) who }
    ensures passed { task_of (view p.new) who ≡ Settles (place + 1) 0 }
    ensures loads { Went L.law who IsLoadStep (book p.old) (book p.new) }
{
    if load_overwriter(pre, t, p, who, place) {
        load_succ(pre, t, p, who, place);
    }
}

// Passes the version read at this place.
fn pass_read<L: RowLaw>(
    pre: &mut Pre,
    t: &Table<L>,
    p: &mut Pass,
    who: Seat,
    place: usize,
) -> Result<(), SeatWait>
    requires fits { Fits t.now.words.shared.table_id p.old }
    requires stands { Stands pre.old (view p.old) who }
    requires task { task_of (view p.old) who ≡ Settles place 0 }
    requires place { place < length pre.old.reads.value.items }
    ensures fits { Fits t.now.words.shared.table_id p.new }
    ensures went { WentOn (view p.old) who (view p.new) }
    ensures stands { Stands pre.new (view p.new) who }
    ensures passed { OnOk result (task_of (view p.new) who ≡ Settles (place + 1) 0) }
    ensures waits { IfErr result (λ wait. WaitsForSeat (view p.old) who wait.seat wait.seen (view p.new)) }
    ensures loads { Went L.law who IsLoadStep (book p.old) (book p.new) }
    ensures took_wait { IfErr result (λ wait. TookSeatWait L.law who wait.seat wait.seen (book p.old) (book p.new)) }
{
    pass_owner(pre, t, p, who, place)?;
    rate_read(pre, t, p, who, place);
    Ok(())
}

/// Passes all versions read.
pub(crate) fn pass_reads<L: RowLaw>(
    pre: &mut Pre,
    t: &Table<L>,
    p: &mut Pass,
    who: Seat,
) -> Result<(), SeatWait>
    requires fits { Fits t.now.words.shared.table_id p.old }
    requires stands { Stands pre.old (view p.old) who }
    requires task { task_of (view p.old) who ≡ Settles 0 0 }
    ensures fits { Fits t.now.words.shared.table_id p.new }
    ensures went { WentOn (view p.old) who (view p.new) }
    ensures stands { Stands pre.new (view p.new) who }
    ensures passed { OnOk result (task_of (view p.new) who ≡ Settles (length pre.new.reads.value.items) 0) }
    ensures waits { IfErr result (λ wait. WaitsForSeat (view p.old) who wait.seat wait.seen (view p.new)) }
    ensures loads { Went L.law who IsLoadStep (book p.old) (book p.new) }
    ensures took_wait { IfErr result (λ wait. TookSeatWait L.law who wait.seat wait.seen (book p.old) (book p.new)) }
{
    for place in 0..pre.reads.len() {
        pass_read(pre, t, p, who, place)?;
    }
    Ok(())
}
