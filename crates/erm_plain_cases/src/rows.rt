//! Calls of several sessions in turn, worked out by hand: of the world in lists and of the world over the word table. But for how many
//! versions a tidy cuts off, both answer them so.
use crate::calls::{Call, Reply, Turn, is_answered};
use crate::steps::{Case, Step, first_in_lists, first_over_words};
use crate::worlds::in_lists;
use erm_model::{RowStop, STOP};
use erm_world::{BeginStop, Wait};
use std::alloc::{AllocError, Global};

// A seal moves the log's end on by five words, and an abort leaves it. A settle commits what read nothing. No object is made twice. A session
// that settled is idle again, and reads the opening's row.
const SESSIONS: [Turn; 14] = [
    Turn(1, Call::Begin, Reply::At(13)),
    Turn(2, Call::Begin, Reply::At(13)),
    Turn(1, Call::Fresh, Reply::Made(16)),
    Turn(1, Call::Seal, Reply::At(13)),
    Turn(1, Call::Begin, Reply::OutOfPhase),
    Turn(1, Call::Abort, Reply::OutOfPhase),
    Turn(3, Call::Begin, Reply::At(18)),
    Turn(2, Call::Abort, Reply::Done),
    Turn(2, Call::Abort, Reply::OutOfPhase),
    Turn(2, Call::Begin, Reply::At(18)),
    Turn(2, Call::Fresh, Reply::Made(17)),
    Turn(1, Call::Settle, Reply::Commits([1, 13, 18, 13, 0])),
    Turn(1, Call::Begin, Reply::At(18)),
    Turn(1, Call::Read(5), Reply::First(0)),
];

// Two sessions want one object: the first owns it; the second waits for its row, and the third comes too late.
const ONE_OBJECT: [Turn; 16] = [
    Turn(1, Call::Begin, Reply::At(13)),
    Turn(2, Call::Begin, Reply::At(13)),
    Turn(3, Call::Begin, Reply::At(13)),
    Turn(1, Call::Claim(16), Reply::Done),
    Turn(
        2,
        Call::Claim(16),
        Reply::Stopped(RowStop::Owned { seat: 1, number: 1 }),
    ),
    Turn(2, Call::Claim(16), Reply::OutOfPhase),
    Turn(1, Call::Write(16, 7), Reply::Done),
    Turn(1, Call::Seal, Reply::At(13)),
    Turn(2, Call::Begin, Reply::At(20)),
    Turn(
        2,
        Call::Read(16),
        Reply::Stopped(RowStop::NotYet { seat: 1, seen: 13 }),
    ),
    Turn(2, Call::Read(17), Reply::First(0)),
    Turn(1, Call::Settle, Reply::Commits([1, 13, 20, 13, 0])),
    Turn(2, Call::Read(16), Reply::First(7)),
    Turn(
        3,
        Call::Claim(16),
        Reply::Stopped(RowStop::Newer { stamp: 13 }),
    ),
    Turn(3, Call::Claim(16), Reply::OutOfPhase),
    Turn(0, Call::Begin, Reply::OutOfPhase),
];

// A write skew: each of two transactions reads both objects, and writes one.
pub(crate) const WRITE_SKEW: [Turn; 17] = [
    Turn(1, Call::Begin, Reply::At(13)),
    Turn(1, Call::Write(16, 1), Reply::Done),
    Turn(1, Call::Write(17, 2), Reply::Done),
    Turn(1, Call::Seal, Reply::At(13)),
    Turn(1, Call::Settle, Reply::Commits([1, 13, 22, 13, 0])),
    Turn(1, Call::Begin, Reply::At(22)),
    Turn(2, Call::Begin, Reply::At(22)),
    Turn(1, Call::Read(16), Reply::First(1)),
    Turn(1, Call::Read(17), Reply::First(2)),
    Turn(2, Call::Read(16), Reply::First(1)),
    Turn(2, Call::Read(17), Reply::First(2)),
    Turn(1, Call::Write(16, 3), Reply::Done),
    Turn(2, Call::Write(17, 4), Reply::Done),
    Turn(1, Call::Seal, Reply::At(22)),
    Turn(1, Call::Settle, Reply::Commits([2, 22, 29, 22, 13])),
    Turn(2, Call::Seal, Reply::At(29)),
    Turn(2, Call::Settle, Reply::Excluded([29, 22, 22])),
];

// Two transactions read the same three objects, and each overwrites one of them. The later one waits for the earlier one, and is excluded.
const LATER: [Turn; 15] = [
    Turn(1, Call::Begin, Reply::At(13)),
    Turn(1, Call::Read(0), Reply::First(0)),
    Turn(1, Call::Read(16), Reply::First(0)),
    Turn(1, Call::Read(17), Reply::First(0)),
    Turn(2, Call::Begin, Reply::At(13)),
    Turn(2, Call::Read(0), Reply::First(0)),
    Turn(2, Call::Read(16), Reply::First(0)),
    Turn(2, Call::Read(17), Reply::First(0)),
    Turn(1, Call::Write(16, 1), Reply::Done),
    Turn(1, Call::Seal, Reply::At(13)),
    Turn(2, Call::Write(17, 2), Reply::Done),
    Turn(2, Call::Seal, Reply::At(20)),
    Turn(2, Call::Settle, BEHIND_FIRST),
    Turn(1, Call::Settle, Reply::Commits([1, 13, 20, 13, 0])),
    Turn(2, Call::Settle, Reply::Excluded([20, 13, 13])),
];

const BEHIND_FIRST: Reply = Reply::Waits(Wait::Seat { seat: 1, seen: 13 });

const BEHIND_THIRD: Reply = Reply::Waits(Wait::Seat { seat: 3, seen: 18 });

// One that overwrites what two have read waits for each of them that is sealed below it, and commits behind both.
const READERS: [Turn; 12] = [
    Turn(1, Call::Begin, Reply::At(13)),
    Turn(1, Call::Read(16), Reply::First(0)),
    Turn(3, Call::Begin, Reply::At(13)),
    Turn(3, Call::Read(16), Reply::First(0)),
    Turn(1, Call::Seal, Reply::At(13)),
    Turn(3, Call::Seal, Reply::At(18)),
    Turn(2, Call::Begin, Reply::At(23)),
    Turn(2, Call::Write(16, 7), Reply::Done),
    Turn(2, Call::Seal, Reply::At(23)),
    Turn(2, Call::Settle, BEHIND_FIRST),
    Turn(1, Call::Settle, Reply::Commits([1, 13, 18, 13, 0])),
    Turn(2, Call::Settle, BEHIND_THIRD),
];

const BOTH_READ: [Turn; 2] = [
    Turn(3, Call::Settle, Reply::Commits([1, 18, 23, 18, 0])),
    Turn(2, Call::Settle, Reply::Commits([1, 23, 30, 23, 18])),
];

// It doesn't wait for those that read on; they come before it.
const READ_ON: [Turn; 12] = [
    Turn(1, Call::Begin, Reply::At(13)),
    Turn(1, Call::Read(16), Reply::First(0)),
    Turn(3, Call::Begin, Reply::At(13)),
    Turn(3, Call::Read(16), Reply::First(0)),
    Turn(2, Call::Begin, Reply::At(13)),
    Turn(2, Call::Fill(16, 7), Reply::Done),
    Turn(2, Call::Seal, Reply::At(13)),
    Turn(2, Call::Settle, Reply::Commits([1, 13, 35, 13, 0])),
    Turn(1, Call::Seal, Reply::At(35)),
    Turn(1, Call::Settle, Reply::Commits([1, 35, 40, 13, 0])),
    Turn(3, Call::Seal, Reply::At(40)),
    Turn(3, Call::Settle, Reply::Commits([1, 40, 45, 13, 0])),
];

// A transaction that only reads has seen the later of two, and not the earlier one, which is excluded.
const READ_ONLY: [Turn; 20] = [
    Turn(1, Call::Begin, Reply::At(13)),
    Turn(1, Call::Write(16, 1), Reply::Done),
    Turn(1, Call::Write(17, 2), Reply::Done),
    Turn(1, Call::Seal, Reply::At(13)),
    Turn(1, Call::Settle, Reply::Commits([1, 13, 22, 13, 0])),
    Turn(2, Call::Begin, Reply::At(22)),
    Turn(2, Call::Read(16), Reply::First(1)),
    Turn(2, Call::Read(17), Reply::First(2)),
    Turn(2, Call::Write(16, 3), Reply::Done),
    Turn(1, Call::Begin, Reply::At(22)),
    Turn(1, Call::Write(17, 4), Reply::Done),
    Turn(1, Call::Seal, Reply::At(22)),
    Turn(1, Call::Settle, Reply::Commits([2, 22, 29, 22, 13])),
    Turn(3, Call::Begin, Reply::At(29)),
    Turn(3, Call::Read(16), Reply::First(1)),
    Turn(3, Call::Read(17), Reply::First(4)),
    Turn(3, Call::Seal, Reply::At(29)),
    Turn(3, Call::Settle, Reply::Commits([1, 29, 34, 29, 22])),
    Turn(2, Call::Seal, Reply::At(34)),
    Turn(2, Call::Settle, Reply::Excluded([34, 22, 29])),
];

// A read is overwritten by one whose other row a third has read: its reader is excluded at its claim, before it seals.
const EARLY: [Turn; 19] = [
    Turn(1, Call::Begin, Reply::At(13)),
    Turn(1, Call::Write(16, 1), Reply::Done),
    Turn(1, Call::Write(17, 2), Reply::Done),
    Turn(1, Call::Seal, Reply::At(13)),
    Turn(1, Call::Settle, Reply::Commits([1, 13, 22, 13, 0])),
    Turn(2, Call::Begin, Reply::At(22)),
    Turn(2, Call::Read(16), Reply::First(1)),
    Turn(1, Call::Begin, Reply::At(22)),
    Turn(1, Call::Write(17, 4), Reply::Done),
    Turn(1, Call::Seal, Reply::At(22)),
    Turn(1, Call::Settle, Reply::Commits([2, 22, 29, 22, 13])),
    Turn(3, Call::Begin, Reply::At(29)),
    Turn(3, Call::Read(16), Reply::First(1)),
    Turn(3, Call::Read(17), Reply::First(4)),
    Turn(3, Call::Seal, Reply::At(29)),
    Turn(3, Call::Settle, Reply::Commits([1, 29, 34, 29, 22])),
    Turn(2, Call::Read(17), Reply::First(2)),
    Turn(
        2,
        Call::Claim(16),
        Reply::Stopped(RowStop::Excluded { succ: 22, pred: 29 }),
    ),
    Turn(2, Call::Seal, Reply::OutOfPhase),
];

// No transaction begins at the end of the log.
const LOG_END: [Turn; 2] = [
    Turn(
        1,
        Call::Begin,
        Reply::NotBegun(BeginStop::LogEnd { tail: STOP }),
    ),
    Turn(1, Call::Seal, Reply::OutOfPhase),
];

// An old version is cut off once nobody may read it; the world in lists has none to cut off.
const TIDY: [Turn; 17] = [
    Turn(1, Call::Begin, Reply::At(13)),
    Turn(1, Call::Write(16, 1), Reply::Done),
    Turn(1, Call::Seal, Reply::At(13)),
    Turn(1, Call::Settle, Reply::Commits([1, 13, 20, 13, 0])),
    Turn(2, Call::Begin, Reply::At(20)),
    Turn(1, Call::Begin, Reply::At(20)),
    Turn(1, Call::Tidy(16), Reply::Cut(1)),
    Turn(1, Call::Tidy(16), Reply::Cut(0)),
    Turn(1, Call::Write(16, 2), Reply::Done),
    Turn(1, Call::Seal, Reply::At(20)),
    Turn(1, Call::Settle, Reply::Commits([2, 20, 27, 20, 13])),
    Turn(1, Call::Begin, Reply::At(27)),
    Turn(1, Call::Tidy(16), Reply::Cut(0)),
    Turn(2, Call::Read(16), Reply::First(1)),
    Turn(2, Call::Seal, Reply::At(27)),
    Turn(2, Call::Settle, Reply::Commits([1, 27, 32, 20, 13])),
    Turn(1, Call::Tidy(16), Reply::Cut(1)),
];

// Versions that a session may read, which began before all of them, aren't cut off.
const CHAIN: [Turn; 18] = [
    Turn(2, Call::Begin, Reply::At(13)),
    Turn(1, Call::Begin, Reply::At(13)),
    Turn(1, Call::Tidy(16), Reply::Cut(0)),
    Turn(1, Call::Write(16, 1), Reply::Done),
    Turn(1, Call::Seal, Reply::At(13)),
    Turn(1, Call::Settle, Reply::Commits([1, 13, 20, 13, 0])),
    Turn(1, Call::Begin, Reply::At(20)),
    Turn(1, Call::Tidy(16), Reply::Cut(0)),
    Turn(1, Call::Write(16, 2), Reply::Done),
    Turn(1, Call::Seal, Reply::At(20)),
    Turn(1, Call::Settle, Reply::Commits([2, 20, 27, 20, 13])),
    Turn(1, Call::Begin, Reply::At(27)),
    Turn(1, Call::Tidy(16), Reply::Cut(0)),
    Turn(1, Call::Write(16, 3), Reply::Done),
    Turn(1, Call::Seal, Reply::At(27)),
    Turn(1, Call::Settle, Reply::Commits([3, 27, 34, 27, 20])),
    Turn(1, Call::Begin, Reply::At(34)),
    Turn(1, Call::Tidy(16), Reply::Cut(0)),
];

// Once it has ended all of them are, by a tidy; or by a claim, which leaves a tidy none.
const ENDED: [Turn; 5] = [
    Turn(2, Call::Abort, Reply::Done),
    Turn(1, Call::Tidy(16), Reply::Cut(3)),
    Turn(1, Call::Abort, Reply::Done),
    Turn(1, Call::Begin, Reply::At(34)),
    Turn(1, Call::Tidy(16), Reply::Cut(0)),
];

const CLAIMED: [Turn; 6] = [
    Turn(1, Call::Abort, Reply::Done),
    Turn(2, Call::Abort, Reply::Done),
    Turn(1, Call::Begin, Reply::At(34)),
    Turn(1, Call::Write(16, 4), Reply::Done),
    Turn(1, Call::Tidy(16), Reply::Cut(0)),
    Turn(1, Call::Abort, Reply::Done),
];

// Calls in turn that both worlds answer so, and what they show.
const CASES: [Case; 8] = [
    ("begin, seal, settle and abort", &[Step::Turns(&SESSIONS)]),
    ("one object", &[Step::Turns(&ONE_OBJECT)]),
    ("write skew", &[Step::Turns(&WRITE_SKEW)]),
    ("the later of two", &[Step::Turns(&LATER)]),
    (
        "two readers",
        &[Step::Turns(&READERS), Step::Turns(&BOTH_READ)],
    ),
    ("two that read on", &[Step::Turns(&READ_ON)]),
    ("read only", &[Step::Turns(&READ_ONLY)]),
    ("early exclusion", &[Step::Turns(&EARLY)]),
];

// What the world in lists has none of.
const CUTS: [Case; 3] = [
    ("an old version", &[Step::Turns(&TIDY)]),
    ("three", &[Step::Turns(&CHAIN), Step::Turns(&ENDED)]),
    (
        "three, by a claim",
        &[Step::Turns(&CHAIN), Step::Turns(&CLAIMED)],
    ),
];

#[test]
fn calls_in_turn_are_answered_in_lists(rt: HostRuntime) -> Result<(), AllocError> {
    assert_eq!(rt; first_in_lists(rt.alloc(), &CASES)?, None);
    assert!(rt; is_answered(&mut in_lists(rt.alloc(), true)?, &LOG_END));
    Ok(())
}

#[test]
fn calls_in_turn_are_answered_over_words(rt: HostRuntime) -> Result<(), AllocError> {
    assert_eq!(rt; first_over_words(rt.alloc(), &CASES)?, None);
    assert_eq!(rt; first_over_words(rt.alloc(), &CUTS)?, None);
    Ok(())
}

// The first words of the rows that the world in lists has of three objects once the commits of a write skew are answered.
fn rows_behind(alloc: Global) -> Result<Option<[u64; 3]>, AllocError> {
    let mut world = in_lists(alloc, false)?;
    if !is_answered(&mut world, &WRITE_SKEW) {
        return Ok(None);
    }
    Ok(Some([world.row(16)[0], world.row(17)[0], world.row(18)[0]]))
}

// The last commit's row of an object, one on which an excluded transaction left nothing, and one that nobody has written.
#[test]
fn commits_leave_the_final_rows(rt: HostRuntime) -> Result<(), AllocError> {
    assert!(rt; rows_behind(rt.alloc())? == Some([3, 2, 0]));
    Ok(())
}
