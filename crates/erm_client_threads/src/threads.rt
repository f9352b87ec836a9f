//! All programs, each on a thread of its own.
ghost use Rattle.std.specs.List.{All};
ghost use Rattle.erm_client_threads.specs.Work.{AllWorked, IsJob, Worked};
ghost use Rattle.erm_model.specs.RowTransaction.{SameLaw};
ghost use Rattle.erm_node.specs.Sound.{sound_law};

use crate::{Job, Program, work};
use erm_beside::SafeSession;
use erm_worker::Turns;
use std::sync::Wait;
use std::thread::{self, Threads};

/// Runs all programs, each on a thread of its own where one can be made. What their clients left stands in the jobs: no session goes elsewhere.
pub fn work_all<
    'a,
    S: SafeSession + Send,
    T: Turns + Send,
    P: Program + Send,
    R: Threads + Wait + Sync,
>(rt: &R, jobs: &mut [Job<'a, S, T, P>])
where
    S::Shared: Sync,
    requires law { SameLaw S.law sound_law }
    requires jobs { All (λ j. IsJob S.stands S.seat S.own j) jobs.old }
    ensures worked { AllWorked S.stands S.seat S.own S.ends T.told P.promises jobs.old jobs.new }
{
    let threads = jobs.len().max(1);
    thread::for_each_mut(
        rt,
        jobs,
        threads,
        &|_: usize, job: &mut Job<'_, S, T, P>|
            requires { SameLaw S.law sound_law × IsJob S.stands S.seat S.own job.now }
            ensures { Worked S.stands S.seat S.own S.ends T.told P.promises job.entry.now job.exit.now }
        { work(rt, job) },
    );
}
