//! What clients leave behind their programs, taken apart.
ghost use Rattle.std.specs.Prelude.{◌≡◌, ◌≤◌, ℕ, [], Some, vec_capacity, vec_len};
ghost use Rattle.std.specs.List.{slice_get};
ghost use Rattle.erm_client_beside.specs.Back.{AreBack, HasFinished, IsBack};

use crate::ran::ProgramRun;
use crate::turns::ClientTurns;
use erm_client::Finished;
use erm_client_threads::Job;
use erm_desk::Naming;
use erm_model::RowLaw;
use erm_outside::{Disk, Gate};
use erm_shared_session::TableSession;
use std::sync::Wait;
use std::sync::ledger::{Ledger, Share};

// A program behind its job, with its session, and what was met by what it waited by.
fn take_one<'a, L: RowLaw, D: Disk + Drop, B: Naming + Ledger, G: Gate, R: Wait, P>(
    job: Job<'a, TableSession<L>, ClientTurns<'a, L, D, B, G, R>, P>,
) -> (Share<B>, TableSession<L>, ProgramRun<P>)
    requires done { HasFinished job }
    ensures back { IsBack job.entry result.1 result.2 }
    ensures met { (left : _) → job.entry.finished ≡ Some left → result.0.amount ≡ left.turns.turns.met.amount }
{
    let Job {
        program,
        client,
        finished,
    } = job;
    match client {
        None => {}
        Some(_client) => unreachable!(),
    }
    let Some(left) = finished else {
        unreachable!();
    };
    let Finished {
        session,
        turns,
        transcript,
        closed,
    } = left;
    let run = ProgramRun {
        program,
        transcript,
        closed,
    };
    (turns.into_met(), session, run)
}

/// The sessions and the programs behind their jobs, in order, for which there is room; and what all of these have met is put together.
pub(crate) fn take_back<
    'a,
    L: RowLaw,
    D: Disk + Drop,
    B: Naming + Ledger,
    G: Gate,
    R: Wait,
    P: Drop,
>(
    back: Vec<Job<'a, TableSession<L>, ClientTurns<'a, L, D, B, G, R>, P>>,
    met: &mut Share<B>,
    sessions: &mut Vec<TableSession<L>>,
    runs: &mut Vec<ProgramRun<P>>,
)
    requires done { (k : ℕ) (b : _) → slice_get back.items k ≡ Some b → HasFinished b }
    requires none { (sessions.old.items ≡ []) × (runs.old.items ≡ []) }
    requires room { (vec_len back ≤ vec_capacity sessions.old) × (vec_len back ≤ vec_capacity runs.old) }
    ensures back { AreBack back.entry.items sessions.new.items runs.new.items }
    ensures met { (k : ℕ) (b : _) → slice_get back.entry.items k ≡ Some b → (left : _) → b.finished ≡ Some left → left.turns.turns.met.amount ≤ met.new.amount }
{
    let mut left = back.into_iter();
    while let Some(job) = left.next() {
        let (share, session, run) = take_one(job);
        met.merge(share);
        sessions.push_reserved(session);
        runs.push_reserved(run);
    }
    left.destroy_empty();
}
