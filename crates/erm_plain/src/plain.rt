//! The world in lists, with the savepoints of its sessions' transactions.
ghost use Rattle.std.specs.Prelude.{◌≡◌, ◌+◌, ◌<◌, ◌≤◌, ℕ, IfOk, length};
ghost use Rattle.erm_model.specs.declared.limits.TheConstants.{LAST_RUN, MOST_CELLS, OID_LIMIT, SESSIONS, STOP};
ghost use Rattle.erm_model.specs.History.{History, rank_of, rows_after};
ghost use Rattle.erm_model.specs.SerialOrder.{IsSerialOrder};
ghost use Rattle.erm_core.specs.Cores.{core_of, rows_of};
ghost use Rattle.erm_core_steps.specs.Pinned.{IsNewestRow};
ghost use Rattle.erm_machine.specs.Core.{opening_state};
ghost use Rattle.erm_plain.specs.Logs.{plain_log};
ghost use Rattle.erm_plain.specs.Stands.{IsWorld, Stands, plain_view};
ghost use Rattle.erm_world.specs.World.{history_of};

use crate::Savepoints;
use erm_lists::Lists;
use erm_model::{Oid, Row, RowLaw, Seat, Stamp};
use std::alloc::{AllocError, Global};

/// The world in lists, and the savepoints of its sessions' transactions. Its rows keep the law of `L`.
#[derive(Drop)]
pub struct Plain<L> {
    pub(crate) lists: Lists<L>,
    pub(crate) saves: Savepoints,
}

/// A world that stands between two calls has what each world of sessions has: its commits are serializable, each of its
/// transactions is possible, each safe snapshot stands on a safe stamp, and its log is a log, that of its view.
pub fn standing_worlds_have_laws<L: RowLaw>()
    ensures { (p : Plain L) → Stands L.law p → IsWorld L.law p }
{
    erm_lists::standing_worlds_have_laws::<L>();
}

impl<L: RowLaw> Plain<L> {
    /// A world of so many sessions, from 1 to 48, on a row for each object. Its log goes on at `tail`, in words, from 13, which
    /// is behind the first block of a log, to 2^60 + 4, and is written as this run, from 1 to 2^44 - 1; the objects that it
    /// makes have numbers from `first` on. The rows meet the law, and reach no object from `first` on.
    pub fn open(
        alloc: Global,
        rows: &[Row],
        tail: Stamp,
        run: u64,
        first: u64,
        sessions: Seat,
    ) -> Result<Plain<L>, AllocError>
        requires some { 0 < sessions }
        requires few { sessions ≤ SESSIONS }
        requires rows { length rows.now ≡ OID_LIMIT }
        requires positive { 13 ≤ tail }
        requires low { tail ≤ STOP + 4 }
        requires run_low { 1 ≤ run }
        requires run_high { run ≤ LAST_RUN }
        requires first { first ≤ OID_LIMIT }
        requires meets { L.law.meets (rows_of rows.now) }
        requires unreached { (oid : ℕ) → first ≤ oid → L.law.reach (rows_of rows.now) oid ≡ 0 }
        ensures stands { IfOk result (Stands L.law) }
        ensures world { IfOk result (IsWorld L.law) }
        ensures opened { IfOk result (λ p. core_of p.lists.state ≡ opening_state sessions (rows_of rows.now) tail run first MOST_CELLS) }
        ensures sessions { IfOk result (λ p. p.lists.sessions ≡ sessions) }
    {
        standing_worlds_have_laws::<L>();
        let lists = Lists::open(alloc, rows, tail, run, first, sessions)?;
        let saves = Savepoints::new(alloc, sessions)?;
        Ok(Plain { lists, saves })
    }

    /// The place that is pinned, in words, if there is one.
    pub fn pinned(&self) -> Option<Stamp>
        ensures { result ≡ (plain_log self.now).pinned }
    {
        self.lists.pinned()
    }

    /// The row of an object, below 2^14, as all commits so far leave it: the one that the commit with the greatest stamp made of
    /// it, or else the opening's. After all commits, one after another in their serial order, it is the object's row. What isn't
    /// committed doesn't count.
    pub fn row(&self, oid: Oid) -> Row
        requires stands { Stands L.law self.now }
        requires object { oid < OID_LIMIT }
        ensures newest { IsNewestRow (plain_view self.now) oid result (plain_view self.now).tail }
        ensures serial { (order : History) → IsSerialOrder rank_of (history_of (plain_view self.now)) order
            → result ≡ rows_after order (plain_view self.now).opening.rows oid }
    {
        self.lists.row(oid)
    }
}
