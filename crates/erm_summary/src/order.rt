//! The serial order of the transactions that committed and the safe snapshots that ended.
ghost use Rattle.std.specs.Prelude.{◌≡◌, List, IfOk, IsPermutation, length, map};
ghost use Rattle.std.specs.List.{range_with_len};
ghost use Rattle.erm_model.specs.Committed.{rank_of};
ghost use Rattle.erm_model.specs.SerialOrder.{IsSerialOrder, StampsDiffer};
ghost use Rattle.erm_report.specs.declared.answer.Answer.{Answer as Answered};
ghost use Rattle.erm_script.specs.declared.script.ScriptLine.{ScriptLine as LineOfScript};
ghost use Rattle.erm_summary.specs.Told.{history_told};
ghost use Rattle.erm_summary.specs.Summary.{at_places, commit_named};

use crate::ToldCommit;
use erm_audit::serial_order;
use erm_model::Commit;
use std::alloc::{AllocError, Global};

/// The places of the commits in the serial order.
pub fn order_of(alloc: Global, commits: &[ToldCommit]) -> Result<Vec<usize>, AllocError>
    ensures all { IfOk result (λ order. IsPermutation (range_with_len 0 (length commits.now)) order.items) }
    ensures serial { IfOk result (λ order. (script : List LineOfScript) (answers : List Answered) → let told = history_told script answers commits.now in
        StampsDiffer rank_of told → IsSerialOrder rank_of told (at_places told order.items)) }
{
    let named = named(alloc, commits)?;
    serial_order(alloc, &named)
}

// The commits by their names and stamps.
fn named(alloc: Global, commits: &[ToldCommit]) -> Result<Vec<Commit>, AllocError>
    ensures { IfOk result (λ named. named.items ≡ map commit_named commits.now) }
{
    commits
        .iter()
        .map(|commit| Commit {
            seat: commit.session,
            number: commit.number,
            stamp: commit.stamp,
            succ: commit.succ,
        })
        .collect(alloc)
}
