//! Settle, up to the decision.
ghost use Rattle.std.specs.Prelude.{◌≡◌, true, length, IfErr, OnOk};
ghost use Rattle.erm_machine.specs.declared.task.Task.TheVariants.{Settles};
ghost use Rattle.erm_machine.specs.Seat.{is_sealed};
ghost use Rattle.erm_machine.specs.Settling.{may_settle};
ghost use Rattle.erm_rule.specs.Books.{book};
ghost use Rattle.erm_rule.specs.Steps.{Fits};
ghost use Rattle.erm_rule.specs.Views.{view, part_of};
ghost use Rattle.erm_precommit.specs.Pre.{IsPre};
ghost use Rattle.erm_precommit.specs.Settle.{task_of, DidSettle, Stands, WaitsForRing, WaitsForSeat, WentOn};
ghost use Rattle.erm_rule.specs.Went.{IsLoadStep, Went};
ghost use Rattle.erm_precommit.specs.Took.{TookRingWait, TookSeatWait, TookSettle, TookStart};

use crate::answer::{SeatWait, Settled, Wait};
use crate::pre::Pre;
use crate::reads::pass_reads;
use crate::writes::pass_writes;
use erm_cells::load_flushed;
use erm_model::{RowLaw, Seat, Stamp};
use erm_rule::{Pass, Table};

// Begins a settle, or begins it anew, once the ring has room for the block. The answer is the place flushed where it hasn't.
fn start<L: RowLaw>(pre: &Pre, t: &Table<L>, p: &mut Pass, who: Seat) -> Result<(), Stamp>
    requires fits { Fits t.now.words.shared.table_id p.old }
    requires sealed { is_sealed (part_of (view p.old) who).place ≡ true }
    requires starts { may_settle (task_of (view p.old) who) ≡ true }
    requires kept { IsPre pre.now (part_of (view p.old) who) }
    ensures fits { Fits t.now.words.shared.table_id p.new }
    ensures went { WentOn (view p.old) who (view p.new) }
    ensures stands { Stands pre.now (view p.new) who }
    ensures began { OnOk result (task_of (view p.new) who ≡ Settles 0 0) }
    ensures full { IfErr result (λ flushed. WaitsForRing (view p.old) who flushed (view p.new)) }
    ensures took { OnOk result (TookStart L.law who (book p.old) (book p.new)) }
    ensures took_full { IfErr result (λ flushed. TookRingWait L.law who flushed (book p.old) (book p.new)) }
{
    let flushed = load_flushed(t, p, who);
    if pre.fits_ring(flushed) {
        Ok(())
    } else {
        Err(flushed)
    }
}

// Passes all versions that the transaction read, and then those that it overwrote.
fn pass_all<L: RowLaw>(pre: &mut Pre, t: &Table<L>, p: &mut Pass, who: Seat) -> Result<(), SeatWait>
    requires fits { Fits t.now.words.shared.table_id p.old }
    requires stands { Stands pre.old (view p.old) who }
    requires task { task_of (view p.old) who ≡ Settles 0 0 }
    ensures fits { Fits t.now.words.shared.table_id p.new }
    ensures went { WentOn (view p.old) who (view p.new) }
    ensures stands { Stands pre.new (view p.new) who }
    ensures passed { OnOk result (task_of (view p.new) who ≡ Settles (length pre.new.reads.value.items) (length pre.new.claims.value.items)) }
    ensures waits { IfErr result (λ wait. WaitsForSeat (view p.old) who wait.seat wait.seen (view p.new)) }
    ensures loads { Went L.law who IsLoadStep (book p.old) (book p.new) }
    ensures took_wait { IfErr result (λ wait. TookSeatWait L.law who wait.seat wait.seen (book p.old) (book p.new)) }
{
    pass_reads(pre, t, p, who)?;
    pass_writes(pre, t, p, who)
}

/// Settles a sealed transaction up to its decision: passes the versions that it read and overwrote. Where something isn't ready it
/// may be called again, and begins anew then, with the numbers found so far.
pub fn settle<L: RowLaw>(pre: &mut Pre, t: &Table<L>, p: &mut Pass, who: Seat) -> Settled
    requires fits { Fits t.now.words.shared.table_id p.old }
    requires sealed { is_sealed (part_of (view p.old) who).place ≡ true }
    requires starts { may_settle (part_of (view p.old) who).task ≡ true }
    requires kept { IsPre pre.old (part_of (view p.old) who) }
    ensures fits { Fits t.now.words.shared.table_id p.new }
    ensures went { WentOn (view p.old) who (view p.new) }
    ensures stands { Stands pre.new (view p.new) who }
    ensures settled { DidSettle (view p.old) who result (view p.new) }
    ensures took { TookSettle L.law who result (book p.old) (book p.new) }
{
    if let Err(flushed) = start(pre, t, p, who) {
        return Settled::Wait(Wait::Ring { flushed });
    }
    match pass_all(pre, t, p, who) {
        Ok(()) => Settled::Ready {
            succ: pre.succ,
            pred: pre.pred,
        },
        Err(SeatWait { seat, seen }) => Settled::Wait(Wait::Seat { seat, seen }),
    }
}
