//! A claim.
ghost use Rattle.std.specs.Prelude.{◌≡◌, ◌<◌, true, IfErr, IfOk, None};
ghost use Rattle.erm_cells.specs.Calls.{starts_anew};
ghost use Rattle.erm_cells.specs.Hands.{newest_claimed};
ghost use Rattle.erm_cells.specs.Spare.{SpareIs};
ghost use Rattle.erm_machine.specs.declared.task.Task.TheVariants.{Draws};
ghost use Rattle.erm_machine.specs.Facts.{Holds};
ghost use Rattle.erm_machine.specs.Seat.{is_active};
ghost use Rattle.erm_machine.specs.Words.{is_session};
ghost use Rattle.erm_rows.specs.Active.{IsActive, closed_window};
ghost use Rattle.erm_rows.specs.Claims.{DidClaim, DidCutChain, DidFill, DidFindNoCell, DidNotClaim, IsClaimedHead, TellsCount, WasCells};
ghost use Rattle.erm_rule.specs.Books.{book};
ghost use Rattle.erm_rule.specs.Hands.{IsKnown};
ghost use Rattle.erm_rule.specs.Steps.{Fits};
ghost use Rattle.erm_rule.specs.Views.{view, part_of};
ghost use Rattle.erm_rows.specs.Took.{TookClaim, TookCutChain, TookFill, TookNoCell, TookNoClaim};
ghost use Rattle.erm_rule.specs.Went.{IsStillStep, Went};

use crate::active::Active;
use crate::taking::take_entry;
use erm_cells::{Spare, copy_row, draw, rate};
use erm_cut::{cut, horizon};
use erm_entries::unclaim;
use erm_machine::OBJECT_LIMIT;
use erm_model::{Oid, Row, RowLaw, RowStop, Seat, Stamp};
use erm_precommit::KeptClaim;
use erm_rule::{Pass, Table};

/// What a claim got.
#[derive(Clone, Copy, Debug)]
pub struct Filled {
    /// Its own cell.
    pub own: u32,
    /// The reader stamp of the version that it overwrites.
    pub readers: Stamp,
    /// The row of that version, which is copied into the cell.
    pub row: Row,
}

/// What a claim answers.
#[derive(Clone, Copy, Debug)]
pub struct Claimed {
    /// The row of the version that it overwrites.
    pub row: Row,
    /// How many cells its cut made spare ones: those of the versions behind the newest one that any seat may still read.
    pub cut: u32,
}

/// Cuts the chain of an object whose entry the transaction owns and whose head, in this cell, is in hand: behind the newest version
/// below the least stamp that any seat may still read at. The cells cut off become spare ones: the answer is how many they are.
pub fn cut_chain<L: RowLaw>(
    t: &Table<L>,
    p: &mut Pass,
    who: Seat,
    head: u32,
    spare: &mut Spare,
) -> u32
    requires fits { Fits t.now.words.shared.table_id p.old }
    requires active { is_active (part_of (view p.old) who).place ≡ true }
    requires claimed { IsClaimedHead (part_of (view p.old) who).task head }
    requires spare { SpareIs spare.old (part_of (view p.old) who) }
    ensures fits { Fits t.now.words.shared.table_id p.new }
    ensures cut { DidCutChain (view p.old) who result (view p.new) }
    ensures spare { SpareIs spare.new (part_of (view p.new) who) }
    ensures took { TookCutChain L.law who result (book p.old) (book p.new) }
{
    let bound = horizon(t, p, who);
    cut(t, p, who, head, bound, spare)
}

/// Gives the newest claim, of this object and over the version in this cell, a cell of its own with the row that it overwrites. Where
/// all cells are drawn, so many, the claim is given up: nobody owns the entry then.
pub fn fill_claim<L: RowLaw>(
    t: &Table<L>,
    p: &mut Pass,
    who: Seat,
    oid: Oid,
    base: u32,
    spare: &mut Spare,
) -> Result<Filled, u64>
    requires fits { Fits t.now.words.shared.table_id p.old }
    requires known { IsKnown (view p.old) }
    requires active { is_active (part_of (view p.old) who).place ≡ true }
    requires draws { (part_of (view p.old) who).task ≡ Draws }
    requires object { oid < OBJECT_LIMIT }
    requires claimed { (newest_claimed (part_of (view p.old) who)).oid ≡ oid }
    requires base { (newest_claimed (part_of (view p.old) who)).cell ≡ base }
    requires spare { SpareIs spare.old (part_of (view p.old) who) }
    ensures fits { Fits t.now.words.shared.table_id p.new }
    ensures filled { IfOk result (λ filled. DidFill (view p.old) who filled (view p.new)) }
    ensures refused { IfErr result (λ drawn. DidFindNoCell (view p.old) who oid base drawn (view p.new)) }
    ensures spare { SpareIs spare.new (part_of (view p.new) who) }
    ensures counted { IfErr result (λ drawn. WasCells (book p.old) drawn (book p.new)) }
    ensures took { IfOk result (λ filled. TookFill L.law who filled.own filled.readers filled.row (book p.old) (book p.new)) }
    ensures took_none { IfErr result (λ drawn. TookNoCell L.law who oid base drawn (book p.old) (book p.new)) }
{
    let own = match draw(t, p, who, spare) {
        Ok(own) => own,
        Err(drawn) => {
            unclaim(t, p, who, oid, base);
            return Err(drawn);
        }
    };
    let readers = rate(t, p, who, base);
    let row = copy_row(t, p, who, base, own);
    Ok(Filled { own, readers, row })
}

// Claims an object, before the early test.
fn claim_object<L: RowLaw>(
    txn: &mut Active,
    spare: &mut Spare,
    t: &Table<L>,
    p: &mut Pass,
    who: Seat,
    oid: Oid,
) -> Result<Claimed, RowStop>
    requires fits { Fits t.now.words.shared.table_id p.old }
    requires session { is_session who ≡ true }
    requires active { is_active (part_of (view p.old) who).place ≡ true }
    requires kept { IsActive txn.old (part_of (view p.old) who) }
    requires spare { SpareIs spare.old (part_of (view p.old) who) }
    requires starts { starts_anew (part_of (view p.old) who).task ≡ true }
    requires object { oid < OBJECT_LIMIT }
    requires unclaimed { Holds (part_of (view p.old) who) oid → ⊥ }
    ensures fits { Fits t.now.words.shared.table_id p.new }
    ensures kept { IsActive txn.new (part_of (view p.new) who) }
    ensures spare { SpareIs spare.new (part_of (view p.new) who) }
    ensures claimed { IfOk result (λ claimed. DidClaim (view p.old) who oid claimed.row (view p.new)) }
    ensures refused { IfErr result (λ stop. DidNotClaim (view p.old) who oid stop (view p.new)) }
    ensures counted { IfErr result (λ stop. TellsCount (book p.old) stop (book p.new)) }
    ensures took { IfOk result (λ claimed. TookClaim L.law who oid claimed.cut (book p.old) (book p.new)) }
    ensures took_none { IfErr result (λ stop. TookNoClaim L.law who oid stop (book p.old) (book p.new)) }
{
    let head = take_entry(txn, t, p, who, oid)?;
    let cut = cut_chain(t, p, who, head, spare);
    let filled = match fill_claim(t, p, who, oid, head, spare) {
        Ok(filled) => filled,
        Err(drawn) => return Err(RowStop::CellsFull { drawn }),
    };
    let claim = KeptClaim {
        oid,
        overwritten: head,
        own: filled.own,
    };
    txn.add_claim(claim, filled.readers);
    let row = filled.row;
    Ok(Claimed { row, cut })
}

/// Claims an object that the transaction hasn't claimed yet: takes its entry, cuts its chain, and gives the claim a cell of its own,
/// whose row is that of the version overwritten, until a write sets it. The answer has that row, and how many cells the cut made spare ones. The
/// caller keeps what it claims: it may not be asked for again.
/// A claim is refused where as many objects are claimed as may be, where another transaction owns the entry, where the newest version
/// isn't below the begin stamp, where no cell is left, and, once the claim is made, where the exclusion
/// window known so far is closed: then, and for another owner or a newer version, the transaction is to end.
pub fn claim<L: RowLaw>(
    txn: &mut Active,
    spare: &mut Spare,
    t: &Table<L>,
    p: &mut Pass,
    who: Seat,
    oid: Oid,
) -> Result<Claimed, RowStop>
    requires fits { Fits t.now.words.shared.table_id p.old }
    requires session { is_session who ≡ true }
    requires active { is_active (part_of (view p.old) who).place ≡ true }
    requires kept { IsActive txn.old (part_of (view p.old) who) }
    requires spare { SpareIs spare.old (part_of (view p.old) who) }
    requires starts { starts_anew (part_of (view p.old) who).task ≡ true }
    requires object { oid < OBJECT_LIMIT }
    requires unclaimed { Holds (part_of (view p.old) who) oid → ⊥ }
    ensures fits { Fits t.now.words.shared.table_id p.new }
    ensures kept { IsActive txn.new (part_of (view p.new) who) }
    ensures spare { SpareIs spare.new (part_of (view p.new) who) }
    ensures claimed { IfOk result (λ claimed. DidClaim (view p.old) who oid claimed.row (view p.new)) }
    ensures open { IfOk result (λ _. closed_window txn.new ≡ None) }
    ensures refused { IfErr result (λ stop. DidNotClaim (view p.old) who oid stop (view p.new)) }
    ensures counted { IfErr result (λ stop. TellsCount (book p.old) stop (book p.new)) }
    ensures took { IfOk result (λ claimed. TookClaim L.law who oid claimed.cut (book p.old) (book p.new)) }
    ensures took_none { IfErr result (λ stop. TookNoClaim L.law who oid stop (book p.old) (book p.new)) }
    ensures still { Went L.law who IsStillStep (book p.old) (book p.new) }
{
    let claimed = claim_object(txn, spare, t, p, who, oid)?;
    match txn.closed_window() {
        Some((succ, pred)) => Err(RowStop::Excluded { succ, pred }),
        None => Ok(claimed),
    }
}
