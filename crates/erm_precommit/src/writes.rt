//! A settle passes a version overwritten: its readers below the own stamp have to be over, and then its creator's stamp and its reader
//! stamp count.
ghost use Rattle.std.specs.Int.{bit_at, trailing_zeros, w64};
ghost use Rattle.std.specs.Prelude.{◌≡◌, ◌<◌, ◌+◌, ℕ, length, IfErr, IfOk, OnOk};
ghost use Rattle.erm_machine.specs.declared.task.Task.TheVariants.{ReadersLeft, Settles, WriteClear, WriteMade};
ghost use Rattle.erm_rule.specs.Books.{book};
ghost use Rattle.erm_rule.specs.Steps.{Fits};
ghost use Rattle.erm_rule.specs.Views.{view};
ghost use Rattle.erm_precommit.specs.Settle.{readers_task, task_of, HasRead, Stands, StopsAt, WaitsForSeat, WentOn};
ghost use Rattle.erm_rule.specs.Went.{IsLoadStep, Went};
ghost use Rattle.erm_precommit.specs.Took.{TookSeatWait};

use crate::answer::SeatWait;
use crate::pre::Pre;
use erm_cells::{load_readers, load_stamp};
use erm_kept::words::without_bit;
use erm_machine::CellWord;
use erm_model::{RowLaw, Seat};
use erm_rule::{Pass, Table};
use erm_seats::answer::Look;
use erm_seats::look;

// Loads the reader bits of the version overwritten at this place, and answers those of other seats.
fn load_others<L: RowLaw>(pre: &Pre, t: &Table<L>, p: &mut Pass, who: Seat, place: usize) -> u64
    requires fits { Fits t.now.words.shared.table_id p.old }
    requires stands { Stands pre.now (view p.old) who }
    requires task { task_of (view p.old) who ≡ Settles (length pre.now.reads.value.items) place }
    requires place { place < length pre.now.claims.value.items }
    ensures fits { Fits t.now.words.shared.table_id p.new }
    ensures went { WentOn (view p.old) who (view p.new) }
    ensures stands { Stands pre.now (view p.new) who }
    ensures task { task_of (view p.new) who ≡ readers_task place result }
    ensures readers { (q : ℕ) → bit_at result q ≡ 1 → HasRead (view p.old) who place q }
    ensures loads { Went L.law who IsLoadStep (book p.old) (book p.new) }
{
    let claim = pre.claim_at(place);
    let readers = load_readers(t, p, who, claim.overwritten);
    without_bit(readers, who)
}

// Looks at the least of the seats that have read a version overwritten, and answers which are left then.
fn look_at_least<L: RowLaw>(
    pre: &Pre,
    t: &Table<L>,
    p: &mut Pass,
    who: Seat,
    place: usize,
    bits: u64,
) -> Result<u64, SeatWait>
    requires fits { Fits t.now.words.shared.table_id p.old }
    requires stands { Stands pre.now (view p.old) who }
    requires task { task_of (view p.old) who ≡ ReadersLeft place bits }
    ensures fits { Fits t.now.words.shared.table_id p.new }
    ensures went { WentOn (view p.old) who (view p.new) }
    ensures stands { Stands pre.now (view p.new) who }
    ensures left { IfOk result (λ left. task_of (view p.new) who ≡ readers_task place left) }
    ensures fewer { IfOk result (λ left. left < bits) }
    ensures among { IfOk result (λ left. (q : ℕ) → bit_at left q ≡ 1 → bit_at bits q ≡ 1) }
    ensures set { bit_at bits (trailing_zeros w64 bits) ≡ 1 }
    ensures stops { IfErr result (λ wait. StopsAt (view p.old) who (trailing_zeros w64 bits) wait (view p.new)) }
    ensures loads { Went L.law who IsLoadStep (book p.old) (book p.new) }
    ensures took_wait { IfErr result (λ wait. TookSeatWait L.law who wait.seat wait.seen (book p.old) (book p.new)) }
{
    let seat = bits.trailing_zeros() as Seat;
    match look(t, p, who, seat, pre.stamp) {
        Look::Clear => Ok(without_bit(bits, seat)),
        Look::NotYet { seat, seen } => Err(SeatWait { seat, seen }),
    }
}

// Passes the readers of the version overwritten at this place.
fn pass_readers<L: RowLaw>(
    pre: &Pre,
    t: &Table<L>,
    p: &mut Pass,
    who: Seat,
    place: usize,
) -> Result<(), SeatWait>
    requires fits { Fits t.now.words.shared.table_id p.old }
    requires stands { Stands pre.now (view p.old) who }
    requires task { task_of (view p.old) who ≡ Settles (length pre.now.reads.value.items) place }
    requires place { place < length pre.now.claims.value.items }
    ensures fits { Fits t.now.words.shared.table_id p.new }
    ensures went { WentOn (view p.old) who (view p.new) }
    ensures stands { Stands pre.now (view p.new) who }
    ensures clear { OnOk result (task_of (view p.new) who ≡ WriteClear place) }
    ensures waits { IfErr result (λ wait. WaitsForSeat (view p.old) who wait.seat wait.seen (view p.new)) }
    ensures loads { Went L.law who IsLoadStep (book p.old) (book p.new) }
    ensures took_wait { IfErr result (λ wait. TookSeatWait L.law who wait.seat wait.seen (book p.old) (book p.new)) }
{
    let mut bits = load_others(pre, t, p, who, place);
    while bits != 0 {
        bits = look_at_least(pre, t, p, who, place, bits)?;
    }
    Ok(())
}

// The creator's stamp of the version overwritten at this place counts.
fn rate_creator<L: RowLaw>(pre: &mut Pre, t: &Table<L>, p: &mut Pass, who: Seat, place: usize)
    requires fits { Fits t.now.words.shared.table_id p.old }
    requires stands { Stands pre.old (view p.old) who }
    requires task { task_of (view p.old) who ≡ WriteClear place }
    ensures fits { Fits t.now.words.shared.table_id p.new }
    ensures went { WentOn (view p.old) who (view p.new) }
    ensures stands { Stands pre.new (view p.new) who }
    ensures made { task_of (view p.new) who ≡ WriteMade place }
    ensures loads { Went L.law who IsLoadStep (book p.old) (book p.new) }
{
    let claim = pre.claim_at(place);
    let creator = load_stamp(t, p, who, claim.overwritten, CellWord::Stamp);
    pre.find_pred(creator);
}

// The reader stamp of the version overwritten at this place counts.
fn rate_readers<L: RowLaw>(pre: &mut Pre, t: &Table<L>, p: &mut Pass, who: Seat, place: usize)
    requires fits { Fits t.now.words.shared.table_id p.old }
    requires stands { Stands pre.old (view p.old) who }
    requires task { task_of (view p.old) who ≡ WriteMade place }
    ensures fits { Fits t.now.words.shared.table_id p.new }
    ensures went { WentOn (view p.old) who (view p.new) }
    ensures stands { Stands pre.new (view p.new) who }
    ensures passed { task_of (view p.new) who ≡ Settles (length pre.new.reads.value.items) (place + 1) }
    ensures loads { Went L.law who IsLoadStep (book p.old) (book p.new) }
{
    let claim = pre.claim_at(place);
    let reader = load_stamp(t, p, who, claim.overwritten, CellWord::ReaderStamp);
    pre.find_pred(reader);
}

// Passes the version overwritten at this place.
fn pass_write<L: RowLaw>(
    pre: &mut Pre,
    t: &Table<L>,
    p: &mut Pass,
    who: Seat,
    place: usize,
) -> Result<(), SeatWait>
    requires fits { Fits t.now.words.shared.table_id p.old }
    requires stands { Stands pre.old (view p.old) who }
    requires task { task_of (view p.old) who ≡ Settles (length pre.old.reads.value.items) place }
    requires place { place < length pre.old.claims.value.items }
    ensures fits { Fits t.now.words.shared.table_id p.new }
    ensures went { WentOn (view p.old) who (view p.new) }
    ensures stands { Stands pre.new (view p.new) who }
    ensures passed { OnOk result (task_of (view p.new) who ≡ Settles (length pre.new.reads.value.items) (place + 1)) }
    ensures waits { IfErr result (λ wait. WaitsForSeat (view p.old) who wait.seat wait.seen (view p.new)) }
    ensures loads { Went L.law who IsLoadStep (book p.old) (book p.new) }
    ensures took_wait { IfErr result (λ wait. TookSeatWait L.law who wait.seat wait.seen (book p.old) (book p.new)) }
{
    pass_readers(pre, t, p, who, place)?;
    rate_creator(pre, t, p, who, place);
    rate_readers(pre, t, p, who, place);
    Ok(())
}

/// Passes all versions overwritten, once all versions read are passed.
pub(crate) fn pass_writes<L: RowLaw>(
    pre: &mut Pre,
    t: &Table<L>,
    p: &mut Pass,
    who: Seat,
) -> Result<(), SeatWait>
    requires fits { Fits t.now.words.shared.table_id p.old }
    requires stands { Stands pre.old (view p.old) who }
    requires task { task_of (view p.old) who ≡ Settles (length pre.old.reads.value.items) 0 }
    ensures fits { Fits t.now.words.shared.table_id p.new }
    ensures went { WentOn (view p.old) who (view p.new) }
    ensures stands { Stands pre.new (view p.new) who }
    ensures passed { OnOk result (task_of (view p.new) who ≡ Settles (length pre.new.reads.value.items) (length pre.new.claims.value.items)) }
    ensures waits { IfErr result (λ wait. WaitsForSeat (view p.old) who wait.seat wait.seen (view p.new)) }
    ensures loads { Went L.law who IsLoadStep (book p.old) (book p.new) }
    ensures took_wait { IfErr result (λ wait. TookSeatWait L.law who wait.seat wait.seen (book p.old) (book p.new)) }
{
    for place in 0..pre.claims.len() {
        pass_write(pre, t, p, who, place)?;
    }
    Ok(())
}
