//! What an audit of the log tells after a run: the commits of the run's report. The law is the contract of a function that does nothing.
#![tactic(auto)]

ghost use Rattle.std.specs.Prelude.{◌≡◌, ◌++◌, ℕ, List};
ghost use Rattle.erm_model.specs.Committed.{Committed, below};
ghost use Rattle.erm_block.specs.declared.block.Block.{Block};
ghost use Rattle.erm_world.specs.Log.{IsLog, Log, gathered_to, place_behind};
ghost use Rattle.erm_told_log.specs.Tail.{MeetsRun, log_to};
ghost use Rattle.erm_told_crash.specs.Logged.{HasCommits};
ghost use Rattle.erm_told_audit.specs.Audits.{AuditTells};

use erm_model::RowLaw;

/// Where a log has the commits that are told, and all of it is flushed, the blocks that recovery meets tell just those commits, from the
/// place on where recovery begins.
pub fn audits_tell_the_commits()
    ensures { (log : Log) (commits : List Committed) (from : ℕ) (met : List Block) → HasCommits log commits → MeetsRun log from met
        → gathered_to log ≡ log.tail → log.flushed ≡ log.tail → AuditTells met from log.opened.at commits }
{}

/// Where recovery meets, of the blocks of a log that has the commits that are told, those of a front, as on an image that a crash leaves in
/// the middle of a run: they tell just those of the commits that lie below the place behind this front, from the place on where recovery begins.
pub fn fronts_tell_the_commits_below<L: RowLaw>()
    ensures { (log : Log) (commits : List Committed) (front rest : List Block) (from : ℕ) (met : List Block) → IsLog L.law.meets log → HasCommits log commits
        → log.gathered ≡ front ++ rest → MeetsRun (log_to log front) from met
        → AuditTells met from log.opened.at (below (place_behind log.opened.at front) commits) }
{}
