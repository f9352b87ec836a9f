//! Why a call is refused.
ghost use Rattle.std.specs.Prelude.{◌≡◌, ◌≢◌, Some};
ghost use Rattle.erm_client.specs.Refusals.{IsRefusal, refusal_told};

use erm_model::{Seat, Stamp};
use erm_report::Answer;
use thiserror::Error;

/// Why a call of a client is refused.
#[derive(Clone, Copy, Debug, PartialEq, Eq, Error)]
pub enum Refusal {
    /// A transaction is begun, or a snapshot, and the last one isn't over. It goes on as before.
    #[error("the session has a transaction or a snapshot already")]
    NotIdle,
    /// There is no transaction.
    #[error("the session has no transaction")]
    NoTransaction,
    /// The transaction is sealed, and isn't decided.
    #[error("the session's transaction is sealed")]
    IsSealed,
    /// The session has a snapshot, which only reads. It goes on as before.
    #[error("the session has a snapshot, which only reads")]
    ReadOnly,
    /// The session was given with a snapshot, which isn't known to be safe. It goes on as before.
    #[error("the session's snapshot isn't known to be safe")]
    NotSafe,
    /// A commit of a session with a safe snapshot: this has ended, and has its place in the serial order, but there was nothing to commit.
    #[error("the session's snapshot has ended, and committed nothing")]
    Ended,
    /// The session has no snapshot that could be ended. Nothing was asked; its transaction, if it has one, goes on as before.
    #[error("the session has no snapshot")]
    NoSnapshot,
    /// The snapshot isn't known to be safe: the commit of this seat and stamp, not below the snapshot's begin, has its turn before its stamp. The
    /// snapshot is over: it may be begun again.
    #[error("the commit of session {seat} and stamp {stamp} has its turn before its stamp")]
    Unsafe { seat: Seat, stamp: Stamp },
    /// No transaction begins any more, and no snapshot, since the log has come as far as this, in words.
    #[error("the log has come to its end, at {tail}")]
    LogEnd { tail: Stamp },
    /// The session has no number left for a transaction or a snapshot.
    #[error("the session has no number left for a transaction or a snapshot")]
    NumbersEnd,
    /// The transaction of this seat and number has written the key, or a node on the way to it. The own one has ended, and leaves nothing: it may be
    /// begun again.
    #[error("transaction {number} of session {seat} has written there")]
    Owned { seat: Seat, number: u32 },
    /// The commit of this stamp, not below the own begin, has written the key, or a node on the way to it. The own transaction has ended, and
    /// leaves nothing: it may be begun again.
    #[error("the commit of stamp {stamp} has written there since the begin")]
    Newer { stamp: Stamp },
    /// Its exclusion window is closed, `succ <= pred`, so that it might have no place in the serial order. It has ended, and leaves nothing: it
    /// may be begun again.
    #[error("the transaction's exclusion window is closed, from {succ} to {pred}")]
    Excluded { succ: Stamp, pred: Stamp },
    /// The transaction has read as many objects as it may. It goes on as before.
    #[error("the transaction has read as many objects as it may")]
    ReadsFull,
    /// The transaction has written as many objects as it may. It goes on as before, without this.
    #[error("the transaction has written as many objects as it may")]
    WritesFull,
    /// No cell is left for a new version, so many being drawn. The transaction goes on as before, without this.
    #[error("no cell is left for a new version, of {drawn} drawn")]
    CellsFull { drawn: u64 },
    /// All objects were given out, so many. The transaction goes on as before, without this.
    #[error("all objects were given out, {drawn}")]
    OidsFull { drawn: u64 },
    /// The session has committed nothing that could be on the disk.
    #[error("the session has committed nothing")]
    NoReceipt,
    /// The client was told to stop, by what it waits by. It is asked no more; its transaction was given up, unless it is sealed. A snapshot stays as it was.
    #[error("the client was told to stop")]
    Stopped,
    /// Memory ran out: for the line, which then wasn't asked; while it was run, and then the client is asked no more, and nothing of the line was done but that
    /// the transaction in progress, which is given up, may have gone on; or for a copy of what a scan found, and then the transcript has it.
    #[error("memory ran out")]
    Memory,
}

/// The refusal that an answer tells. That a snapshot has ended is none here.
pub fn refusal_in(answer: &Answer) -> Refusal
    requires { IsRefusal answer.now }
    ensures told { refusal_told answer.now ≡ Some result }
    ensures other { result ≢ Refusal.Ended }
{
    match answer {
        Answer::NotIdle => Refusal::NotIdle,
        Answer::NoTransaction => Refusal::NoTransaction,
        Answer::IsSealed => Refusal::IsSealed,
        Answer::ReadOnly => Refusal::ReadOnly,
        Answer::NotSafe => Refusal::NotSafe,
        Answer::Unsafe { seat, stamp } => Refusal::Unsafe {
            seat: *seat,
            stamp: *stamp,
        },
        Answer::LogEnd { tail } => Refusal::LogEnd { tail: *tail },
        Answer::NumbersEnd => Refusal::NumbersEnd,
        Answer::Owned { seat, number } => Refusal::Owned {
            seat: *seat,
            number: *number,
        },
        Answer::Newer { stamp } => Refusal::Newer { stamp: *stamp },
        Answer::ExcludedEarly { succ, pred } => Refusal::Excluded {
            succ: *succ,
            pred: *pred,
        },
        Answer::Excluded { succ, pred, .. } => Refusal::Excluded {
            succ: *succ,
            pred: *pred,
        },
        Answer::ReadsFull => Refusal::ReadsFull,
        Answer::WritesFull => Refusal::WritesFull,
        Answer::CellsFull { drawn } => Refusal::CellsFull { drawn: *drawn },
        Answer::OidsFull { drawn } => Refusal::OidsFull { drawn: *drawn },
        Answer::NoReceipt => Refusal::NoReceipt,
        _ => unreachable!(),
    }
}
