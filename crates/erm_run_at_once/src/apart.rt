//! The works of sessions, taken apart.
ghost use Rattle.std.specs.Prelude.{◌≡◌, ◌∷◌, ◌++◌, ◌≤◌, [], IfOk, OnOk, map, vec_len};
ghost use Rattle.erm_model.specs.declared.limits.TheConstants.{SESSIONS};
ghost use Rattle.erm_summary.specs.Told.{closed_of};
ghost use Rattle.erm_joined.specs.Merged.{closes_from};
ghost use Rattle.erm_run_at_once.specs.Ran.{answers_of, closes_of};

use erm_model::Seat;
use erm_report::Answer;
use erm_run_beside::SessionWork;
use erm_summary::ClosedSession;
use std::alloc::{AllocError, Global};

/// The works of all sessions, by seat from 1 on: their answers, and the sessions that were closed.
#[derive(Drop)]
pub(crate) struct Apart {
    pub parts: Vec<Vec<Answer>>,
    pub closed: Vec<ClosedSession>,
}

// Notes a session that was closed.
fn note(
    closed: &mut Vec<ClosedSession>,
    session: Seat,
    answer: Option<Answer>,
) -> Result<(), AllocError>
    ensures noted { OnOk result (map closed_of closed.new.items ≡ map closed_of closed.old.items ++ closes_from session (answer ∷ [])) }
{
    if let Some(answer) = answer {
        closed.push(ClosedSession { session, answer })?;
    }
    Ok(())
}

/// Takes the works apart, which stand by seat from 1 on.
pub(crate) fn take_apart(alloc: Global, works: Vec<SessionWork>) -> Result<Apart, AllocError>
    requires few { vec_len works ≤ SESSIONS }
    ensures parts { IfOk result (λ apart. map (λ p. p.items) apart.parts.items ≡ answers_of works.items) }
    ensures closed { IfOk result (λ apart. map closed_of apart.closed.items ≡ closes_from 1 (closes_of works.items)) }
{
    let mut apart = Apart {
        parts: Vec::with_capacity(alloc, works.len())?,
        closed: Vec::new(alloc),
    };
    let mut seat: Seat = 0;
    for work in works {
        seat += 1;
        apart.parts.push(work.answers)?;
        note(&mut apart.closed, seat, work.closed)?;
    }
    Ok(apart)
}
