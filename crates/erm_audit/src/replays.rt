//! Transactions run one after another over a map.
ghost use Rattle.std.specs.Prelude.{IfOk, OnErr};
ghost use Rattle.erm_model.specs.Run.{RunsAll};
ghost use Rattle.erm_audit.specs.Replay.{lists_of, AnswersEach, IsDoneInPart, steps_of_each};

use erm_model::{Map, Op, Reply, run_one};
use std::alloc::{AllocError, Global};

/// Runs the transactions one after another, and answers each one's replies.
/// After an `Err` the map is that after some of them, and then a prefix of the operations of the next.
pub fn replay(
    alloc: Global,
    map: &mut Map,
    transactions: &[Vec<Op>],
) -> Result<Vec<Vec<Reply>>, AllocError>
    ensures replies { IfOk result (λ replies.
        AnswersEach (lists_of transactions.now) (lists_of replies.items)) }
    ensures run { IfOk result (λ replies.
        let steps = steps_of_each (lists_of transactions.now) (lists_of replies.items) in
        RunsAll map.old steps map.new) }
    ensures err { OnErr result (IsDoneInPart (lists_of transactions.now) map.old map.new) }
{
    let mut replies = Vec::with_capacity(alloc, transactions.len())?;
    for ops in transactions {
        replies.push(run_one(alloc, map, ops)?)?;
    }
    Ok(replies)
}
