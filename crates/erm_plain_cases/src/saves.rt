//! Savepoints: what a session reads once it has gone back, what it commits, and what the other sessions meet.
use crate::calls::{Call, Reply, Turn};
use crate::steps::{Case, Each, Step, first_in_lists, first_over_words};
use erm_model::RowStop;
use erm_world::{NoSave, SaveStop};
use std::alloc::AllocError;

// Two rows are committed.
const COMMITTED: [Turn; 5] = [
    Turn(1, Call::Begin, Reply::At(13)),
    Turn(1, Call::Write(16, 10), Reply::Done),
    Turn(1, Call::Fill(17, 20), Reply::Done),
    Turn(1, Call::Seal, Reply::At(13)),
    Turn(1, Call::Settle, Reply::Commits([1, 13, 37, 13, 0])),
];

// A row that was set since a savepoint is again the one that was found, in each of its words. Its claim stays: another session that wants the object
// is ended. The savepoint stays too, and there is none behind it, nor a number 0. What is committed is the row found.
const ONE_ROW: [Turn; 18] = [
    Turn(1, Call::Begin, Reply::At(37)),
    Turn(1, Call::Back(1), Reply::NotBack(NoSave { held: 0 })),
    Turn(1, Call::Save, Reply::Saved(1)),
    Turn(1, Call::Fill(16, 30), Reply::Done),
    Turn(1, Call::Read(16), Reply::Filled(30)),
    Turn(1, Call::Back(1), Reply::Done),
    Turn(1, Call::Read(16), Reply::First(10)),
    Turn(1, Call::Back(2), Reply::NotBack(NoSave { held: 1 })),
    Turn(1, Call::Back(0), Reply::NotBack(NoSave { held: 1 })),
    Turn(2, Call::Begin, Reply::At(37)),
    Turn(
        2,
        Call::Write(16, 40),
        Reply::Stopped(RowStop::Owned { seat: 1, number: 2 }),
    ),
    Turn(1, Call::Back(1), Reply::Done),
    Turn(1, Call::Read(16), Reply::First(10)),
    Turn(1, Call::Seal, Reply::At(37)),
    Turn(1, Call::Settle, Reply::Commits([2, 37, 44, 37, 13])),
    Turn(2, Call::Begin, Reply::At(44)),
    Turn(2, Call::Read(16), Reply::First(10)),
    Turn(2, Call::Save, Reply::Saved(1)),
];

// Each savepoint has its rows: a row set before one is as it was there, one claimed later as it was found; savepoints made later are gone. An
// object that was made stays made.
const TWO_SAVEPOINTS: [Turn; 23] = [
    Turn(1, Call::Begin, Reply::At(37)),
    Turn(1, Call::Write(16, 11), Reply::Done),
    Turn(1, Call::Claim(17), Reply::Done),
    Turn(1, Call::Save, Reply::Saved(1)),
    Turn(1, Call::Write(16, 12), Reply::Done),
    Turn(1, Call::Write(17, 21), Reply::Done),
    Turn(1, Call::Fresh, Reply::Made(16)),
    Turn(1, Call::Write(18, 31), Reply::Done),
    Turn(1, Call::Save, Reply::Saved(2)),
    Turn(1, Call::Fill(16, 13), Reply::Done),
    Turn(1, Call::Back(2), Reply::Done),
    Turn(1, Call::Read(16), Reply::First(12)),
    Turn(1, Call::Read(17), Reply::First(21)),
    Turn(1, Call::Read(18), Reply::First(31)),
    Turn(1, Call::Back(1), Reply::Done),
    Turn(1, Call::Read(16), Reply::First(11)),
    Turn(1, Call::Read(17), Reply::Filled(20)),
    Turn(1, Call::Read(18), Reply::First(0)),
    Turn(1, Call::Back(2), Reply::NotBack(NoSave { held: 1 })),
    Turn(1, Call::Write(18, 32), Reply::Done),
    Turn(1, Call::Fresh, Reply::Made(17)),
    Turn(1, Call::Seal, Reply::At(37)),
    Turn(1, Call::Settle, Reply::Commits([2, 37, 63, 37, 13])),
];

// A row set before a savepoint counts as set behind each way back to it, and one claimed since as not set: a savepoint made there has these rows.
const AGAIN: [Turn; 22] = [
    Turn(1, Call::Begin, Reply::At(37)),
    Turn(1, Call::Write(16, 11), Reply::Done),
    Turn(1, Call::Save, Reply::Saved(1)),
    Turn(1, Call::Write(16, 12), Reply::Done),
    Turn(1, Call::Write(17, 21), Reply::Done),
    Turn(1, Call::Back(1), Reply::Done),
    Turn(1, Call::Save, Reply::Saved(2)),
    Turn(1, Call::Write(16, 13), Reply::Done),
    Turn(1, Call::Write(17, 22), Reply::Done),
    Turn(1, Call::Back(2), Reply::Done),
    Turn(1, Call::Read(16), Reply::First(11)),
    Turn(1, Call::Read(17), Reply::Filled(20)),
    Turn(1, Call::Write(17, 23), Reply::Done),
    Turn(1, Call::Save, Reply::Saved(3)),
    Turn(1, Call::Write(17, 24), Reply::Done),
    Turn(1, Call::Back(3), Reply::Done),
    Turn(1, Call::Read(17), Reply::First(23)),
    Turn(1, Call::Back(1), Reply::Done),
    Turn(1, Call::Read(16), Reply::First(11)),
    Turn(1, Call::Read(17), Reply::Filled(20)),
    Turn(1, Call::Seal, Reply::At(37)),
    Turn(1, Call::Settle, Reply::Commits([2, 37, 61, 37, 13])),
];

// What was read before a session goes back was read: each of two sessions has read both objects, goes back, and writes one.
const READS_STAY: [Turn; 16] = [
    Turn(1, Call::Begin, Reply::At(37)),
    Turn(2, Call::Begin, Reply::At(37)),
    Turn(1, Call::Save, Reply::Saved(1)),
    Turn(1, Call::Read(16), Reply::First(10)),
    Turn(1, Call::Read(17), Reply::Filled(20)),
    Turn(1, Call::Back(1), Reply::Done),
    Turn(2, Call::Save, Reply::Saved(1)),
    Turn(2, Call::Read(16), Reply::First(10)),
    Turn(2, Call::Read(17), Reply::Filled(20)),
    Turn(2, Call::Back(1), Reply::Done),
    Turn(1, Call::Write(16, 30), Reply::Done),
    Turn(2, Call::Write(17, 40), Reply::Done),
    Turn(1, Call::Seal, Reply::At(37)),
    Turn(1, Call::Settle, Reply::Commits([2, 37, 44, 37, 13])),
    Turn(2, Call::Seal, Reply::At(44)),
    Turn(2, Call::Settle, Reply::Excluded([44, 37, 37])),
];

// A write that was undone overwrites what another session has read, by the row that was there.
const CLAIMS_STAY: [Turn; 13] = [
    Turn(1, Call::Begin, Reply::At(37)),
    Turn(2, Call::Begin, Reply::At(37)),
    Turn(1, Call::Save, Reply::Saved(1)),
    Turn(1, Call::Write(16, 30), Reply::Done),
    Turn(1, Call::Read(16), Reply::First(30)),
    Turn(1, Call::Back(1), Reply::Done),
    Turn(1, Call::Read(17), Reply::Filled(20)),
    Turn(2, Call::Read(16), Reply::First(10)),
    Turn(2, Call::Write(17, 40), Reply::Done),
    Turn(1, Call::Seal, Reply::At(37)),
    Turn(1, Call::Settle, Reply::Commits([2, 37, 44, 37, 13])),
    Turn(2, Call::Seal, Reply::At(44)),
    Turn(2, Call::Settle, Reply::Excluded([44, 37, 37])),
];

const SAVED: [Turn; 2] = [
    Turn(1, Call::Begin, Reply::At(13)),
    Turn(1, Call::Save, Reply::Saved(1)),
];

// Objects claimed behind a savepoint, and objects read there, are as many as a transaction may claim and read: behind a way back it is refused
// one more of each. Each claimed row is that of the opening again.
const LIMITS: [Turn; 7] = [
    Turn(1, Call::Back(1), Reply::Done),
    Turn(1, Call::Claim(656), Reply::Stopped(RowStop::WritesFull)),
    Turn(1, Call::Read(656), Reply::Stopped(RowStop::ReadsFull)),
    Turn(1, Call::Read(16), Reply::First(0)),
    Turn(1, Call::Read(143), Reply::First(0)),
    Turn(1, Call::Seal, Reply::At(13)),
    Turn(1, Call::Settle, Reply::Commits([1, 13, 146, 13, 0])),
];

const BEGUN: [Turn; 1] = [Turn(1, Call::Begin, Reply::At(13))];

// A ninth savepoint is refused, until the session goes back. A transaction that ends takes its savepoints with it.
const FULL: [Turn; 8] = [
    Turn(
        1,
        Call::Save,
        Reply::NotSaved(SaveStop::SavesFull { held: 8 }),
    ),
    Turn(1, Call::Back(7), Reply::Done),
    Turn(1, Call::Save, Reply::Saved(8)),
    Turn(1, Call::Abort, Reply::Done),
    Turn(1, Call::Save, Reply::OutOfPhase),
    Turn(1, Call::Back(1), Reply::OutOfPhase),
    Turn(1, Call::Begin, Reply::At(13)),
    Turn(1, Call::Back(1), Reply::NotBack(NoSave { held: 0 })),
];

const CASES: [Case; 7] = [
    ("one row", &[Step::Turns(&COMMITTED), Step::Turns(&ONE_ROW)]),
    (
        "two savepoints",
        &[Step::Turns(&COMMITTED), Step::Turns(&TWO_SAVEPOINTS)],
    ),
    (
        "a savepoint behind a way back",
        &[Step::Turns(&COMMITTED), Step::Turns(&AGAIN)],
    ),
    (
        "reads stay",
        &[Step::Turns(&COMMITTED), Step::Turns(&READS_STAY)],
    ),
    (
        "claims stay",
        &[Step::Turns(&COMMITTED), Step::Turns(&CLAIMS_STAY)],
    ),
    (
        "limits behind a way back",
        &[
            Step::Turns(&SAVED),
            Step::Many(Each::Fills, 16, 128),
            Step::Many(Each::Reads, 144, 512),
            Step::Turns(&LIMITS),
        ],
    ),
    (
        "eight savepoints",
        &[
            Step::Turns(&BEGUN),
            Step::Many(Each::Saves, 1, 8),
            Step::Turns(&FULL),
        ],
    ),
];

#[test]
fn sessions_go_back_in_lists(rt: HostRuntime) -> Result<(), AllocError> {
    assert_eq!(rt; first_in_lists(rt.alloc(), &CASES)?, None);
    Ok(())
}

#[test]
fn sessions_go_back_over_words(rt: HostRuntime) -> Result<(), AllocError> {
    assert_eq!(rt; first_over_words(rt.alloc(), &CASES)?, None);
    Ok(())
}
