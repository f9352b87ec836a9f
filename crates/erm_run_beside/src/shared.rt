//! The desk that workers share under a lock.
ghost use Rattle.std.specs.Prelude.{◌≡◌, ◌+◌, ◌<◌, ◌≤◌, true};
ghost use Rattle.erm_desk.specs.Desk.{TurnsTo};
ghost use Rattle.erm_run_beside.specs.Shared.{TellsFailure};

use erm_desk::{Desk, Naming};
use erm_flush::FlushStop;
use erm_model::{RowLaw, Stamp};
use erm_outside::Disk;
use erm_rule::Table;
use std::sync::ledger::{Book, Ledger, Share};

/// A desk that workers share, with a ledger of how often they met that its disk had failed: while it hasn't, none of their shares has an
/// amount.
#[derive(Drop)]
pub struct SharedDesk<L: RowLaw, D: Disk + Drop, B: Naming + Ledger> {
    desk: Desk<L, D, B>,
    met: Book<B>,
    ghost failed: { 0 < met.total → desk.failed ≡ true },
}

impl<L: RowLaw, D: Disk + Drop, B: Naming + Ledger> SharedDesk<L, D, B> {
    /// A desk whose workers have met nothing yet.
    pub fn new(desk: Desk<L, D, B>, met: Book<B>) -> SharedDesk<L, D, B>
        requires none { met.total ≡ 0 }
    {
        SharedDesk { desk, met }
    }

    /// A turn of the desk. Where it answers that the disk failed, or had failed, the worker's share counts it.
    pub fn turn(&mut self, table: &Table<L>, mine: &mut Share<B>) -> Result<Stamp, FlushStop>
        requires table { table.now.words.shared.table_id ≡ B.table }
        requires part { 0 < mine.old.parts }
        ensures turns { TurnsTo L.law B.start result self.old.desk self.new.desk }
        ensures part { mine.new.parts ≡ mine.old.parts }
        ensures counts { TellsFailure result → mine.new.amount ≡ mine.old.amount + 1 }
        ensures more { mine.old.amount ≤ mine.new.amount }
    {
        let SharedDesk { desk, met } = self;
        let answer = desk.turn(table);
        if let Err(FlushStop::DiskFault | FlushStop::Failed) = answer {
            met.add(mine, 1);
        }
        answer
    }

    /// The desk. Where a share has an amount, the disk has failed.
    pub fn into_desk(self, share: &mut Share<B>) -> Desk<L, D, B>
        ensures same { result ≡ self.desk }
        ensures failed { 0 < share.old.amount → result.failed ≡ true }
    {
        let SharedDesk { desk, mut met } = self;
        met.audit(share);
        desk
    }
}
