//! Sessions after their workers, taken apart.
ghost use Rattle.std.specs.Prelude.{◌≡◌, ◌≤◌, [], IfOk, map, vec_capacity, vec_len};
ghost use Rattle.erm_run_beside.specs.Runs.{IsRoomFor, work_of};

use crate::work::SessionWork;
use erm_threads::Done;
use std::alloc::{AllocError, Global};

/// All sessions after their workers, and their work, both in order.
#[derive(Drop)]
pub(crate) struct Apart<S> {
    pub(crate) sessions: Vec<S>,
    pub(crate) works: Vec<SessionWork>,
}

impl<S> Apart<S> {
    /// Room for so many sessions.
    pub(crate) fn room(alloc: Global, many: usize) -> Result<Apart<S>, AllocError>
        ensures { IfOk result (λ apart. IsRoomFor many apart) }
    {
        let works = Vec::with_capacity(alloc, many)?;
        let sessions = Vec::with_capacity(alloc, many)?;
        Ok(Apart { sessions, works })
    }

    /// Gives up what has no session.
    pub(crate) fn give_up(self)
        requires { vec_len self.sessions ≡ 0 }
    {
        let Apart { sessions, works: _ } = self;
        sessions.destroy_empty();
    }

    /// Takes the sessions apart, for which there is room.
    pub(crate) fn take(&mut self, done: Vec<Done<S>>)
        requires room { IsRoomFor (vec_len done) self.old }
        ensures sessions { self.new.sessions.items ≡ map (λ d. d.session) done.items }
        ensures works { self.new.works.items ≡ map work_of done.items }
    {
        let mut left = done.into_iter();
        while let Some(one) = left.next() {
            self.sessions.push_reserved(one.session);
            self.works.push_reserved(SessionWork {
                answers: one.answers,
                closed: one.closed,
                lacked: one.lacked,
            });
        }
        left.destroy_empty();
    }
}
