//! All memory that programs need but for what their clients do.
ghost use Rattle.std.specs.Prelude.{◌≡◌, false, IfOk};
ghost use Rattle.erm_client_beside.specs.Jobs.{IsRoomFor};

use crate::ran::ProgramRun;
use erm_beside::SharedSession;
use erm_client_threads::Job;
use erm_flush::Flusher;
use std::alloc::{AllocError, Global};

/// Empty, with room for the job of each program, and for what comes of it.
#[derive(Drop)]
pub(crate) struct Room<'a, S: SharedSession, T, P> {
    pub(crate) jobs: Vec<Job<'a, S, T, P>>,
    pub(crate) sessions: Vec<S>,
    pub(crate) runs: Vec<ProgramRun<P>>,
}

/// A flusher, and room for so many programs, before any session has a client.
pub(crate) fn make_ready<'a, S: SharedSession, T, P: Drop>(
    alloc: Global,
    many: usize,
) -> Result<(Flusher, Room<'a, S, T, P>), AllocError>
    ensures new { IfOk result (λ ready. ready.0 ≡ false) }
    ensures room { IfOk result (λ ready. IsRoomFor many ready.1) }
{
    let flusher = Flusher::new(alloc)?;
    let runs = Vec::with_capacity(alloc, many)?;
    let sessions = Vec::with_capacity(alloc, many)?;
    match Vec::with_capacity(alloc, many) {
        Ok(jobs) => Ok((
            flusher,
            Room {
                jobs,
                sessions,
                runs,
            },
        )),
        Err(lack) => {
            sessions.destroy_empty();
            Err(lack)
        }
    }
}
