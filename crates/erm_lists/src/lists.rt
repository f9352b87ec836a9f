//! The world in lists.
ghost use Rattle.std.specs.Prelude.{◌≡◌, ◌+◌, ◌<◌, ◌≤◌, ℕ, IfErr, IfOk, IsOk, ◌↔◌, length};
ghost use Rattle.erm_model.specs.declared.limits.TheConstants.{LAST_RUN, MOST_CELLS, OID_LIMIT, SESSIONS, STOP};
ghost use Rattle.erm_core.specs.Cores.{core_of, rows_of};
ghost use Rattle.erm_machine.specs.declared.attempt.Attempt.{Attempt};
ghost use Rattle.erm_machine.specs.Core.{opening_state};
ghost use Rattle.erm_core_view.specs.Views.{shown_by};
ghost use Rattle.erm_lists.specs.Stands.{IsWorld, Stands, lists_view};
ghost use Rattle.erm_world.specs.World.{IsSession, phase_at, phase_of};

use crate::laws::standing_worlds_have_laws;
use erm_core::State;
use erm_machine::{Place, Task};
use erm_model::{MOST_CELLS, Phase, Receipt, Row, RowLaw, Seat, Stamp};
use erm_world::NotFlushed;
use std::alloc::{AllocError, Global};
use std::marker::PhantomData;

/// A world of sessions over the core machine, in lists. Each call takes the machine's steps, one after another; its view is the
/// machine's. Its rows keep the law of `L`.
#[derive(Drop)]
pub struct Lists<L> {
    pub(crate) state: State,
    pub(crate) sessions: Seat,
    pub(crate) law: PhantomData<L>,
}

impl<L: RowLaw> Lists<L> {
    /// A world of so many sessions, from 1 to 48, on a row for each object. Its log goes on at `tail`, in words, from 13, which
    /// is behind the first block of a log, to 2^60 + 4, and is written as this run, from 1 to 2^44 - 1; the objects that it
    /// makes have numbers from `first` on. The rows meet the law, and reach no object from `first` on.
    pub fn open(
        alloc: Global,
        rows: &[Row],
        tail: Stamp,
        run: u64,
        first: u64,
        sessions: Seat,
    ) -> Result<Lists<L>, AllocError>
        requires some { 0 < sessions }
        requires few { sessions ≤ SESSIONS }
        requires rows { length rows.now ≡ OID_LIMIT }
        requires positive { 13 ≤ tail }
        requires low { tail ≤ STOP + 4 }
        requires run_low { 1 ≤ run }
        requires run_high { run ≤ LAST_RUN }
        requires first { first ≤ OID_LIMIT }
        requires meets { L.law.meets (rows_of rows.now) }
        requires unreached { (oid : ℕ) → first ≤ oid → L.law.reach (rows_of rows.now) oid ≡ 0 }
        ensures stands { IfOk result (Stands L.law) }
        ensures world { IfOk result (IsWorld L.law) }
        ensures opened { IfOk result (λ p. core_of p.state ≡ opening_state sessions (rows_of rows.now) tail run first MOST_CELLS) }
        ensures sessions { IfOk result (λ p. p.sessions ≡ sessions) }
    {
        erm_sound::openings_are_lawful::<L>();
        standing_worlds_have_laws::<L>();
        let state = State::open(alloc, sessions, rows, tail, run, first, MOST_CELLS)?;
        Ok(Lists {
            state,
            sessions,
            law: PhantomData,
        })
    }

    /// The phase of a session.
    pub fn phase(&self, seat: Seat) -> Phase
        requires stands { Stands L.law self.now }
        requires session { IsSession (lists_view self.now) seat }
        ensures { result ≡ phase_at (lists_view self.now) seat }
    {
        let state = self.state.seat(seat);
        match state.place {
            Place::Active { .. } => active_phase(state.task),
            Place::Sealed { .. } => Phase::Sealed,
            _ => Phase::Idle,
        }
    }

    /// Whether a commit is on the disk: all words of the log below the receipt's end are synced.
    pub fn durable(&mut self, seat: Seat, receipt: &Receipt) -> Result<(), NotFlushed>
        requires stands { Stands L.law self.old }
        requires session { IsSession (lists_view self.old) seat }
        ensures stands { Stands L.law self.new }
        ensures same { lists_view self.new ≡ lists_view self.old }
        ensures ok { IsOk result ↔ (receipt.now.end ≤ (lists_view self.old).flushed) }
        ensures err { IfErr result (λ stop. stop.flushed ≡ (lists_view self.old).flushed) }
    {
        let flushed = self.state.flushed();
        if receipt.end <= flushed {
            Ok(())
        } else {
            Err(NotFlushed { flushed })
        }
    }
}

// The phase of an active seat, whose task may be one of a snapshot.
fn active_phase(task: Task) -> Phase
    ensures { (t : Attempt) → result ≡ phase_of (shown_by task t) }
{
    match task {
        Task::Surveys { .. } => Phase::Pending,
        Task::Behind { .. } => Phase::Pending,
        Task::Safe => Phase::Safe,
        Task::SafeWalks { .. } => Phase::Safe,
        Task::SafePassed { .. } => Phase::Safe,
        Task::SafeFound { .. } => Phase::Safe,
        _ => Phase::Active,
    }
}
