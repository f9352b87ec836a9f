//! The dependency graph and the stamps of a small history, computed from their definitions. Slow, and for tests alone.
#![tactic(auto)]

ghost use Rattle.std.specs.Prelude.{◌≡◌, ◌<◌, ◌↔◌, ◌⊎◌, IsTrue, length, slice_get};
ghost use Rattle.erm_model.specs.History.{Makes, Overwrites, ReadsFrom, OverwritesFrom, OverwritesReadOf, Depends, IsPredecessorStamp, IsCertified};
ghost use Rattle.erm_model.specs.declared.history.TransactionRecord.{TransactionRecord};
ghost use Rattle.erm_slow.specs.Slow.{HasSuccessorStamp, IsNewStamp, IsOpenAt};

use erm_model::{Oid, Stamp, TransactionRecord};

/// Whether the second transaction depends on the first.
pub fn depends(t: &TransactionRecord, u: &TransactionRecord) -> bool
    ensures { IsTrue result ↔ Depends t.now u.now }
{
    t.stamp != u.stamp && follows(u, t)
}

/// The successor stamp of the transaction at a place of the history. This can take time exponential in the history's
/// length, since the stamps of those that count are computed anew at each call.
pub fn successor_stamp(history: &[TransactionRecord], place: usize) -> Stamp
    requires { place < length history.now }
    ensures { (t : TransactionRecord) → slice_get history.now place ≡ Some t
        → HasSuccessorStamp history.now t result }
{
    let t = &history[place];
    let mut least = t.stamp;
    for (other, u) in history.iter().enumerate() {
        if u.stamp < t.stamp && overwrites_read_of(u, t) {
            least = least.min(successor_stamp(history, other));
        }
    }
    least
}

/// The predecessor stamp of a transaction in the history.
pub fn predecessor_stamp(history: &[TransactionRecord], t: &TransactionRecord) -> Stamp
    ensures { IsPredecessorStamp history.now result t.now }
{
    let mut greatest: Stamp = 0;
    for u in history {
        if u.stamp < t.stamp && follows(t, u) {
            greatest = greatest.max(u.stamp);
        }
    }
    greatest
}

/// Whether the history is certified: stamps differ, and each transaction carries its successor and predecessor stamps
/// with an open exclusion window.
pub fn is_certified(history: &[TransactionRecord]) -> bool
    ensures { IsTrue result ↔ IsCertified history.now }
{
    for place in 0..history.len() {
        if !is_certified_at(history, place) {
            return false;
        }
    }
    true
}

// Whether the transaction at this place has a new stamp and an open exclusion window.
fn is_certified_at(history: &[TransactionRecord], place: usize) -> bool
    requires { place < length history.now }
    ensures { IsTrue result ↔ (IsNewStamp history.now place × IsOpenAt history.now place) }
{
    is_new_stamp(history, place) && has_open_window(history, place)
}

// Whether nobody before this place has the stamp of the transaction there.
fn is_new_stamp(history: &[TransactionRecord], place: usize) -> bool
    requires { place < length history.now }
    ensures { IsTrue result ↔ IsNewStamp history.now place }
{
    let t = &history[place];
    history[..place].iter().all(|u| u.stamp != t.stamp)
}

// Whether the transaction at this place carries its successor and predecessor stamps with an open exclusion window.
fn has_open_window(history: &[TransactionRecord], place: usize) -> bool
    requires { place < length history.now }
    ensures { IsTrue result ↔ IsOpenAt history.now place }
{
    let t = &history[place];
    carries(
        t,
        successor_stamp(history, place),
        predecessor_stamp(history, t),
    )
}

// Whether a transaction carries these two stamps, and the window between them is open.
fn carries(t: &TransactionRecord, succ: Stamp, pred: Stamp) -> bool
    ensures { IsTrue result
        ↔ ((t.now.succ ≡ succ) × (t.now.pred ≡ pred) × (t.now.pred < t.now.succ)) }
{
    t.succ == succ && t.pred == pred && t.pred < t.succ
}

// Whether an edge of the dependency graph leads from T to U.
fn follows(u: &TransactionRecord, t: &TransactionRecord) -> bool
    ensures { IsTrue result
        ↔ (ReadsFrom u.now t.now ⊎ OverwritesFrom u.now t.now ⊎ OverwritesReadOf u.now t.now) }
{
    reads_from(u, t) || overwrites_from(u, t) || overwrites_read_of(u, t)
}

// Whether a transaction read a version that the other made.
fn reads_from(u: &TransactionRecord, t: &TransactionRecord) -> bool
    ensures { IsTrue result ↔ ReadsFrom u.now t.now }
{
    u.reads
        .iter()
        .any(|r| r.stamp == t.stamp && makes(t, r.oid))
}

// Whether a transaction overwrote a version that the other made.
fn overwrites_from(u: &TransactionRecord, t: &TransactionRecord) -> bool
    ensures { IsTrue result ↔ OverwritesFrom u.now t.now }
{
    u.writes
        .iter()
        .any(|w| w.stamp == t.stamp && makes(t, w.oid))
}

// Whether a transaction overwrote a version that the other read.
fn overwrites_read_of(u: &TransactionRecord, t: &TransactionRecord) -> bool
    ensures { IsTrue result ↔ OverwritesReadOf u.now t.now }
{
    t.reads.iter().any(|r| overwrites(u, r.oid, r.stamp))
}

// Whether a transaction made a version of the object.
fn makes(t: &TransactionRecord, oid: Oid) -> bool
    ensures { IsTrue result ↔ Makes t.now oid }
{
    t.writes.iter().any(|w| w.oid == oid)
}

// Whether a transaction overwrote the version of the object that has this stamp.
fn overwrites(t: &TransactionRecord, oid: Oid, stamp: Stamp) -> bool
    ensures { IsTrue result ↔ Overwrites t.now oid stamp }
{
    t.writes.iter().any(|w| w.oid == oid && w.stamp == stamp)
}
