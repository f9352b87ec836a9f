//! The jobs of the sessions' workers.
ghost use Rattle.std.specs.Prelude.{◌≡◌, ◌↔◌, ◌<◌, ◌≤◌, [], IfOk, IsSome, map, vec_capacity, vec_len};
ghost use Rattle.std.specs.List.{All};
ghost use Rattle.erm_model.specs.declared.limits.TheConstants.{SESSIONS};
ghost use Rattle.erm_run_beside.specs.Jobs.{AreJobs, HasAllRoom, HasRoom};

use crate::shared::SharedDesk;
use crate::turns::DeskTurns;
use erm_desk::Naming;
use erm_model::{RowLaw, Seat};
use erm_outside::{Disk, Gate};
use erm_report::Answer;
use erm_rule::Table;
use erm_script::ScriptLine;
use erm_shared_session::TableSession;
use erm_threads::{Done, Job, room_for_answers};
use std::alloc::{AllocError, Global};
use std::sync::atomic::AtomicU64;
use std::sync::ledger::{Ledger, Share};
use std::sync::{Mutex, Wait};

/// The lines of a session, with room for their answers.
#[derive(Drop)]
pub(crate) struct Part {
    pub(crate) lines: Vec<ScriptLine>,
    pub(crate) answers: Vec<Answer>,
}

/// All memory that sessions need but for what their lines do.
#[derive(Drop)]
pub(crate) struct Room<S, T> {
    pub(crate) parts: Vec<Part>,
    /// Empty, with room for a job for each part.
    pub(crate) jobs: Vec<Job<S, T>>,
    /// The same for what comes of it.
    pub(crate) done: Vec<Done<S>>,
}

// The lines of each session, in order, with room for their answers.
fn with_answers(alloc: Global, parts: Vec<Vec<ScriptLine>>) -> Result<Vec<Part>, AllocError>
    ensures lines { IfOk result (λ made. map (λ p. p.lines.items) made.items ≡ map (λ p. p.items) parts.items) }
    ensures room { IfOk result (λ made. All HasRoom made.items) }
{
    let mut made = Vec::new(alloc);
    for lines in parts {
        let answers = room_for_answers(alloc, lines.as_slice())?;
        made.push(Part { lines, answers })?;
    }
    Ok(made)
}

// Takes all memory before any session has a job.
pub(crate) fn make_room<S, T>(
    alloc: Global,
    parts: Vec<Vec<ScriptLine>>,
) -> Result<Room<S, T>, AllocError>
    ensures { IfOk result (HasAllRoom parts) }
{
    let parts = with_answers(alloc, parts)?;
    let jobs = Vec::with_capacity(alloc, parts.len())?;
    match Vec::with_capacity(alloc, parts.len()) {
        Ok(done) => Ok(Room { parts, jobs, done }),
        Err(lack) => {
            jobs.destroy_empty();
            Err(lack)
        }
    }
}

// What workers count the transactions by that they begin, where there are several: one alone keeps nobody waiting.
fn of_several(many: usize, begun: &AtomicU64) -> Option<&AtomicU64>
    ensures { IsSome result ↔ (1 < many) }
{
    if 1 < many { Some(begun) } else { None }
}

// The jobs of all sessions, in order, for which there is room. The worker of each has a part of this share.
pub(crate) fn make_jobs<'a, L: RowLaw, D: Disk + Drop, B: Naming + Ledger, G: Gate, R: Wait>(
    rt: &'a R,
    table: &'a Table<L>,
    desk: &'a Mutex<SharedDesk<L, D, B>>,
    gate: &'a G,
    halt: &'a AtomicU64,
    begun: &'a AtomicU64,
    met: &mut Share<B>,
    sessions: Vec<TableSession<L>>,
    parts: Vec<Part>,
    jobs: &mut Vec<Job<TableSession<L>, DeskTurns<'a, L, D, B, G, R>>>,
)
    requires table { table.now.words.shared.table_id ≡ B.table }
    requires many { vec_len sessions ≡ vec_len parts }
    requires few { vec_len sessions ≤ SESSIONS }
    requires shares { vec_len sessions ≤ met.old.parts }
    requires unmet { met.old.amount ≡ 0 }
    requires answers { All HasRoom parts.items }
    requires none { jobs.old.items ≡ [] }
    requires room { vec_len parts ≤ vec_capacity jobs.old }
    ensures jobs { AreJobs sessions.items (map (λ p. p.lines.items) parts.items) jobs.new.items }
{
    let begun = of_several(sessions.len(), begun);
    let mut left = sessions.into_iter();
    let mut seat: Seat = 0;
    for part in parts {
        let Some(session) = left.next() else {
            unreachable!();
        };
        seat += 1;
        let turns = DeskTurns::new(
            rt,
            table,
            desk,
            gate,
            halt,
            begun,
            met.split_off(1, 0),
            seat,
        );
        jobs.push_reserved(Job {
            session,
            turns,
            lines: part.lines,
            answers: part.answers,
            closed: None,
            lacked: false,
        });
    }
    left.destroy_empty();
}
