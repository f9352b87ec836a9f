//! The jobs of programs: each with the client of a session.
ghost use Rattle.std.specs.Prelude.{◌≡◌, ◌↔◌, ◌<◌, ◌≤◌, [], IsSome, vec_capacity, vec_len};
ghost use Rattle.erm_client_beside.specs.Jobs.{AreJobs};
ghost use Rattle.erm_engine.specs.Opened.{AreNew};
ghost use Rattle.erm_model.specs.declared.limits.TheConstants.{SESSIONS};

use crate::turns::ClientTurns;
use erm_client::Client;
use erm_client_threads::Job;
use erm_desk::Naming;
use erm_model::{RowLaw, Seat};
use erm_outside::{Disk, Gate};
use erm_rule::{Opening, Table};
use erm_run_beside::{DeskTurns, SharedDesk};
use erm_shared_session::TableSession;
use std::alloc::Global;
use std::sync::atomic::AtomicU64;
use std::sync::ledger::{Ledger, Share};
use std::sync::{Mutex, Wait};

// What clients count the transactions by that they begin, where there are several: one alone keeps nobody waiting.
fn of_several(many: usize, begun: &AtomicU64) -> Option<&AtomicU64>
    ensures { IsSome result ↔ (1 < many) }
{
    if 1 < many { Some(begun) } else { None }
}

/// The jobs of all programs, in order, for which there is room: each has the client of the session of its place. The client of each has a part of
/// this share.
pub(crate) fn make_jobs<
    'a,
    L: RowLaw,
    D: Disk + Drop,
    B: Naming + Ledger,
    G: Gate,
    R: Wait,
    P: Drop,
>(
    rt: &'a R,
    alloc: Global,
    _opening: &Opening,
    table: &'a Table<L>,
    desk: &'a Mutex<SharedDesk<L, D, B>>,
    gate: &'a G,
    halt: &'a AtomicU64,
    begun: &'a AtomicU64,
    met: &mut Share<B>,
    sessions: Vec<TableSession<L>>,
    programs: Vec<P>,
    jobs: &mut Vec<Job<'a, TableSession<L>, ClientTurns<'a, L, D, B, G, R>, P>>,
)
    requires table { table.now.words.shared.table_id ≡ B.table }
    requires new { AreNew L.law table.now _opening.now (vec_len programs) sessions.items }
    requires few { vec_len programs ≤ SESSIONS }
    requires shares { vec_len programs ≤ met.old.parts }
    requires unmet { met.old.amount ≡ 0 }
    requires none { jobs.old.items ≡ [] }
    requires room { vec_len programs ≤ vec_capacity jobs.old }
    ensures jobs { AreJobs L.law table.entry.now _opening.now programs.items jobs.new.items }
{
    let begun = of_several(sessions.len(), begun);
    let mut left = sessions.into_iter();
    let mut seat: Seat = 0;
    for program in programs {
        let Some(session) = left.next() else {
            unreachable!();
        };
        seat += 1;
        let turns = DeskTurns::new(
            rt,
            table,
            desk,
            gate,
            halt,
            begun,
            met.split_off(1, 0),
            seat,
        );
        let turns = ClientTurns { turns };
        jobs.push_reserved(Job {
            program,
            client: Some(Client::new(alloc, session, table, turns, seat)),
            finished: None,
        });
    }
    left.destroy_empty();
}
