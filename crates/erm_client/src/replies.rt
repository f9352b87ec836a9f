//! What an answer tells the caller: what was asked for, or why it is refused.
ghost use Rattle.std.specs.Prelude.{◌≡◌, ◌≢◌, ◌⊎◌, IfErr, IfOk, OnOk, Some};
ghost use Rattle.erm_client.specs.Refusals.{IsUntold, TellsAbort, TellsBegin, TellsCommit, TellsDone, TellsDurable, TellsEnd, TellsFound, TellsPair, TellsSafe, TellsValue, refusal_told};

use crate::Refusal;
use crate::refusal::refusal_in;
use erm_model::{Pairs, Reply, Stamp, Value};
use erm_report::Answer;
use std::alloc::{AllocError, Global};

/// The stamps of a commit, each the place of a block in the log, in words.
#[derive(Clone, Copy, Debug, PartialEq, Eq)]
pub struct Commit {
    /// The commit stamp: its place in the order of commits.
    pub stamp: Stamp,
    /// The successor stamp, which the serial order goes by.
    pub succ: Stamp,
    /// The predecessor stamp, which is below it.
    pub pred: Stamp,
}

/// The begin stamp.
pub fn begin_in(answer: &Answer) -> Result<Stamp, Refusal>
    requires { TellsBegin answer.now }
    ensures ok { IfOk result (λ begin. answer.now ≡ Answer.Began begin) }
    ensures err { IfErr result (λ why. refusal_told answer.now ≡ Some why) }
{
    match answer {
        Answer::Began(begin) => Ok(*begin),
        _ => Err(refusal_in(answer)),
    }
}

/// The begin stamp of a safe snapshot.
pub fn safe_in(answer: &Answer) -> Result<Stamp, Refusal>
    requires { TellsSafe answer.now }
    ensures ok { IfOk result (λ begin. answer.now ≡ Answer.Safe begin) }
    ensures err { IfErr result (λ why. refusal_told answer.now ≡ Some why) }
{
    match answer {
        Answer::Safe(begin) => Ok(*begin),
        _ => Err(refusal_in(answer)),
    }
}

/// The value of a key.
pub fn value_in(answer: &Answer) -> Result<Option<Value>, Refusal>
    requires { TellsValue answer.now }
    ensures ok { IfOk result (λ value. answer.now ≡ Answer.Replied (Reply.Value value)) }
    ensures err { IfErr result (λ why. refusal_told answer.now ≡ Some why) }
{
    match answer {
        Answer::Replied(reply) => match reply {
            Reply::Value(None) => Ok(None),
            Reply::Value(Some(value)) => Ok(Some(value.copied())),
            _ => unreachable!(),
        },
        _ => Err(refusal_in(answer)),
    }
}

/// Whether it was done.
pub fn done_in(answer: &Answer) -> Result<(), Refusal>
    requires { TellsDone answer.now }
    ensures ok { OnOk result (answer.now ≡ Answer.Replied Reply.Done) }
    ensures err { IfErr result (λ why. refusal_told answer.now ≡ Some why) }
{
    match answer {
        Answer::Replied(reply) => match reply {
            Reply::Done => Ok(()),
            _ => unreachable!(),
        },
        _ => Err(refusal_in(answer)),
    }
}

/// The key that was found, with its value.
pub fn pair_in(answer: &Answer) -> Result<Option<(u64, Value)>, Refusal>
    requires { TellsPair answer.now }
    ensures ok { IfOk result (λ found. answer.now ≡ Answer.Replied (Reply.Pair found)) }
    ensures err { IfErr result (λ why. refusal_told answer.now ≡ Some why) }
{
    match answer {
        Answer::Replied(reply) => match reply {
            Reply::Pair(None) => Ok(None),
            Reply::Pair(Some(found)) => Ok(Some((found.0, found.1.copied()))),
            _ => unreachable!(),
        },
        _ => Err(refusal_in(answer)),
    }
}

// The same pairs once more.
fn copied(alloc: Global, pairs: &[(u64, Value)]) -> Result<Vec<(u64, Value)>, AllocError>
    ensures { IfOk result (λ copy. copy.items ≡ pairs.now) }
{
    let mut copy = Vec::new(alloc);
    for pair in pairs {
        copy.push((pair.0, pair.1.copied()))?;
    }
    Ok(copy)
}

/// The keys that were found, with their values. They are copied: memory may run out for them.
pub fn found_in(alloc: Global, answer: &Answer) -> Result<Pairs, Refusal>
    requires { TellsFound answer.now }
    ensures ok { IfOk result (λ found. answer.now ≡ Answer.Replied (Reply.Found found)) }
    ensures err { IfErr result (λ why. (refusal_told answer.now ≡ Some why) ⊎ IsUntold answer.now why) }
{
    match answer {
        Answer::Replied(reply) => match reply {
            Reply::Found(found) => match copied(alloc, found.as_slice()) {
                Ok(copy) => Ok(Pairs::new(copy)),
                Err(AllocError) => Err(Refusal::Memory),
            },
            _ => unreachable!(),
        },
        _ => Err(refusal_in(answer)),
    }
}

/// The stamps of the commit. That a snapshot has ended is a refusal.
pub fn commit_in(answer: &Answer) -> Result<Commit, Refusal>
    requires { TellsCommit answer.now }
    ensures ok { IfOk result (λ commit. answer.now ≡ Answer.Committed commit.stamp commit.succ commit.pred) }
    ensures err { IfErr result (λ why. refusal_told answer.now ≡ Some why) }
{
    match answer {
        Answer::Committed { stamp, succ, pred } => Ok(Commit {
            stamp: *stamp,
            succ: *succ,
            pred: *pred,
        }),
        Answer::Ended => Err(Refusal::Ended),
        _ => Err(refusal_in(answer)),
    }
}

/// Whether the snapshot has ended.
pub fn end_in(answer: &Answer) -> Result<(), Refusal>
    requires { TellsEnd answer.now }
    ensures ok { OnOk result (answer.now ≡ Answer.Ended) }
    ensures err { IfErr result (λ why. refusal_told answer.now ≡ Some why) }
    ensures other { IfErr result (λ why. why ≢ Refusal.Ended) }
{
    match answer {
        Answer::Ended => Ok(()),
        _ => Err(refusal_in(answer)),
    }
}

/// Whether it was aborted.
pub fn abort_in(answer: &Answer) -> Result<(), Refusal>
    requires { TellsAbort answer.now }
    ensures ok { OnOk result (answer.now ≡ Answer.Aborted) }
    ensures err { IfErr result (λ why. refusal_told answer.now ≡ Some why) }
{
    match answer {
        Answer::Aborted => Ok(()),
        _ => Err(refusal_in(answer)),
    }
}

/// The stamp of the commit that is on the disk.
pub fn durable_in(answer: &Answer) -> Result<Stamp, Refusal>
    requires { TellsDurable answer.now }
    ensures ok { IfOk result (λ stamp. answer.now ≡ Answer.Durable stamp) }
    ensures err { IfErr result (λ why. refusal_told answer.now ≡ Some why) }
{
    match answer {
        Answer::Durable(stamp) => Ok(*stamp),
        _ => Err(refusal_in(answer)),
    }
}
