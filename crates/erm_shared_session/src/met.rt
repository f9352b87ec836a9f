//! How far the log has come at least, and is synced at least, as calls met it, and what calls answer.
ghost use Rattle.std.specs.Prelude.{◌≡◌, IfErr};
ghost use Rattle.erm_shared_session.specs.Seen.{IsLowSafeStop, IsLowStop, done_of, flushed_after, flushed_met, settled_of, tail_after, tail_looked, tail_met, tail_past};

use erm_model::{Outcome, RowStop, Stamp};
use erm_precommit::Wait as Found;
use erm_world::{BeginStop, NotFlushed, SafeStop, Wait};

// How far the log has come at least, as a begin met it.
pub(crate) fn tail_after(tail: Stamp, begun: &Result<Stamp, BeginStop>) -> Stamp
    ensures { result ≡ tail_after tail begun.now }
{
    match begun {
        Ok(begin) => *begin,
        Err(BeginStop::LogEnd { tail }) => *tail,
        Err(_) => tail,
    }
}

// How far the log is synced at least, as a look for this place met it.
pub(crate) fn flushed_after(flushed: Stamp, end: Stamp, looked: &Result<(), NotFlushed>) -> Stamp
    ensures { result ≡ flushed_after flushed end looked.now }
{
    match looked {
        Ok(()) => flushed.max(end),
        Err(stop) => stop.flushed,
    }
}

// How far the log has come at least: its end lies above the stamp of each commit that was met.
fn tail_past(tail: Stamp, stop: &RowStop) -> Stamp
    requires low { IsLowStop stop.now }
    ensures { result ≡ tail_past tail stop.now }
{
    match stop {
        RowStop::Excluded { pred, .. } => tail.max(*pred + 1),
        RowStop::Newer { stamp } => tail.max(*stamp + 1),
        _ => tail,
    }
}

// The same after a call that may have been refused.
pub(crate) fn tail_met<T>(tail: Stamp, answer: &Result<T, RowStop>) -> Stamp
    requires low { IfErr answer.now IsLowStop }
    ensures { result ≡ tail_met tail answer.now }
{
    match answer {
        Ok(_) => tail,
        Err(stop) => tail_past(tail, stop),
    }
}

// The same after a look whether a snapshot is safe.
pub(crate) fn tail_looked(tail: Stamp, looked: &Result<(), SafeStop>) -> Stamp
    requires low { IfErr looked.now IsLowSafeStop }
    ensures { result ≡ tail_looked tail looked.now }
{
    match looked {
        Err(SafeStop::Unsafe { stamp, .. }) => tail.max(*stamp + 1),
        _ => tail,
    }
}

// What a claim answers: nothing but that it was made.
pub(crate) fn done_of(claimed: Result<u32, RowStop>) -> Result<(), RowStop>
    ensures { result ≡ done_of claimed }
{
    match claimed {
        Ok(_) => Ok(()),
        Err(why) => Err(why),
    }
}

// How far the log is synced at least, as a settle met it.
pub(crate) fn flushed_met(flushed: Stamp, settled: &Result<Outcome, Found>) -> Stamp
    ensures { result ≡ flushed_met flushed settled.now }
{
    match settled {
        Err(Found::Ring { flushed }) => *flushed,
        _ => flushed,
    }
}

// What a settle answers.
pub(crate) fn settled_of(settled: Result<Outcome, Found>) -> Result<Outcome, Wait>
    ensures { result ≡ settled_of settled }
{
    match settled {
        Ok(outcome) => Ok(outcome),
        Err(Found::Ring { flushed }) => Err(Wait::Ring { flushed }),
        Err(Found::Seat { seat, seen }) => Err(Wait::Seat { seat, seen }),
    }
}
