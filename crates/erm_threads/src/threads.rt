//! All workers, each on a thread of its own.
ghost use Rattle.std.specs.Prelude.{◌≡◌, false};
ghost use Rattle.std.specs.List.{All};
ghost use Rattle.erm_model.specs.RowTransaction.{SameLaw};
ghost use Rattle.erm_node.specs.Sound.{sound_law};
ghost use Rattle.erm_threads.specs.Work.{AllLeftWhenTold, AllWorked, IsJob, LeftWhenTold, Worked, done_of};

use crate::{Job, work};
use erm_beside::SafeSession;
use erm_worker::Turns;
use std::alloc::Global;
use std::sync::Wait;
use std::thread::{self, Threads};

/// Works all jobs, each on a thread of its own where one can be made. What their workers did stands in the jobs: no session goes elsewhere.
pub fn work_all<S: SafeSession + Send, T: Turns + Send, R: Threads + Wait + Sync>(
    rt: &R,
    alloc: Global,
    shared: &S::Shared,
    jobs: &mut [Job<S, T>],
)
where
    S::Shared: Sync,
    requires law { SameLaw S.law sound_law }
    requires jobs { All (λ j. IsJob (S.stands shared.now) S.seat S.own j) jobs.old }
    ensures worked { AllWorked (S.stands shared.now) S.seat S.own S.ends jobs.old jobs.new }
    ensures told { AllLeftWhenTold (λ turns. T.told turns × (T.starved turns ≡ false)) S.seat S.own jobs.old jobs.new }
{
    let threads = jobs.len().max(1);
    thread::for_each_mut(
        rt,
        jobs,
        threads,
        &|_: usize, job: &mut Job<S, T>|
            requires { SameLaw S.law sound_law × IsJob (S.stands shared.now) S.seat S.own job.now }
            ensures { Worked (S.stands shared.entry.now) S.seat S.own S.ends job.entry.now (done_of job.exit.now) × LeftWhenTold (λ turns. T.told turns × (T.starved turns ≡ false)) S.seat S.own job.entry.now job.exit.now }
        { work(rt, alloc, shared, job) },
    );
}
