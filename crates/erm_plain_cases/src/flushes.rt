//! Flush turns and pins between commits, worked out by hand.
ghost use Rattle.std.specs.Prelude.{◌≡◌, length};
ghost use Rattle.erm_model.specs.RowTransaction.{any_law};
ghost use Rattle.erm_model.specs.declared.limits.TheConstants.{RING_WORDS};
ghost use Rattle.erm_plain.specs.Stands.{IsWorld, plain_view};

use crate::calls::{Call, Reply, Turn, is_answered};
use crate::rows::WRITE_SKEW;
use crate::steps::flush;
use crate::worlds::in_lists;
use erm_model::{AnyRows, OID_LIMIT, Oid, RING_WORDS, Stamp};
use erm_plain::Plain;
use erm_world::{Gathered, LogWorld, SeatWait};
use std::alloc::{AllocError, Global};

// One transaction is sealed, and a later one is decided.
const SEALED: [Turn; 5] = [
    Turn(1, Call::Begin, Reply::At(13)),
    Turn(1, Call::Write(16, 7), Reply::Done),
    Turn(1, Call::Seal, Reply::At(13)),
    Turn(2, Call::Begin, Reply::At(20)),
    Turn(2, Call::Seal, Reply::At(20)),
];

// Both are decided.
const DECIDED: [Turn; 2] = [
    Turn(1, Call::Settle, Reply::Commits([1, 13, 20, 13, 0])),
    Turn(2, Call::Settle, Reply::Commits([1, 20, 25, 20, 0])),
];

// A commit of one row.
const FIRST: [Turn; 4] = [
    Turn(1, Call::Begin, Reply::At(13)),
    Turn(1, Call::Write(16, 7), Reply::Done),
    Turn(1, Call::Seal, Reply::At(13)),
    Turn(1, Call::Settle, Reply::Commits([1, 13, 20, 13, 0])),
];

// Three commits more of the same object's row.
const MORE: [Turn; 12] = [
    Turn(1, Call::Begin, Reply::At(20)),
    Turn(1, Call::Write(16, 8), Reply::Done),
    Turn(1, Call::Seal, Reply::At(20)),
    Turn(1, Call::Settle, Reply::Commits([2, 20, 27, 20, 13])),
    Turn(2, Call::Begin, Reply::At(27)),
    Turn(2, Call::Write(16, 9), Reply::Done),
    Turn(2, Call::Seal, Reply::At(27)),
    Turn(2, Call::Settle, Reply::Commits([1, 27, 34, 27, 20])),
    Turn(3, Call::Begin, Reply::At(34)),
    Turn(3, Call::Write(16, 10), Reply::Done),
    Turn(3, Call::Seal, Reply::At(34)),
    Turn(3, Call::Settle, Reply::Commits([1, 34, 41, 34, 27])),
];

// A step of the world in lists, with what it is to answer.
#[derive(Clone, Copy)]
enum Pinned {
    // Calls of sessions.
    Turns(&'static [Turn]),
    // A flush turn.
    Flush(Gathered),
    // The log's end is pinned, unless it is.
    Pin(Option<Stamp>),
    // The pin ends, where there is one.
    Unpin(Option<Stamp>),
    // The first word of an object's row as of the pin, or who is waited for, where there is one.
    First(Oid, Option<Result<u64, SeatWait>>),
}

// Nothing is pinned at first. The pin stays while transactions are decided and flushed, and the next one is at the log's end.
const BETWEEN: [Pinned; 11] = [
    Pinned::Flush(Gathered::Empty { at: 13 }),
    Pinned::Unpin(None),
    Pinned::Pin(Some(13)),
    Pinned::Turns(&SEALED),
    Pinned::Flush(Gathered::Unfilled { at: 13 }),
    Pinned::Turns(&DECIDED),
    Pinned::Pin(None),
    Pinned::Flush(Gathered::Words { at: 13, count: 12 }),
    Pinned::Flush(Gathered::Empty { at: 25 }),
    Pinned::Unpin(Some(13)),
    Pinned::Pin(Some(25)),
];

// A row as of the pin stays, whatever is committed behind it; one that nobody wrote is the opening's. As of the next pin it is the last one.
const KEPT: [Pinned; 10] = [
    Pinned::Turns(&FIRST),
    Pinned::First(16, None),
    Pinned::Pin(Some(20)),
    Pinned::First(16, Some(Ok(7))),
    Pinned::Turns(&MORE),
    Pinned::First(16, Some(Ok(7))),
    Pinned::First(17, Some(Ok(0))),
    Pinned::Unpin(Some(20)),
    Pinned::Pin(Some(41)),
    Pinned::First(16, Some(Ok(10))),
];

// Who is sealed at the pin isn't waited for. Who is sealed below it may commit, and is waited for where it writes.
const WAITED: [Pinned; 9] = [
    Pinned::Pin(Some(13)),
    Pinned::Turns(&SEALED),
    Pinned::First(16, Some(Ok(0))),
    Pinned::Unpin(Some(13)),
    Pinned::Pin(Some(25)),
    Pinned::First(16, Some(Err(SeatWait { seat: 1, seen: 13 }))),
    Pinned::First(17, Some(Ok(0))),
    Pinned::Turns(&DECIDED),
    Pinned::First(16, Some(Ok(7))),
];

// The block of an excluded transaction is gathered too, and leaves the row before it.
const EXCLUDED: [Pinned; 4] = [
    Pinned::Turns(&WRITE_SKEW),
    Pinned::Flush(Gathered::Words { at: 13, count: 23 }),
    Pinned::Pin(Some(36)),
    Pinned::First(17, Some(Ok(2))),
];

const CASES: [(&str, &[Pinned]); 4] = [
    ("flush turns and a pin stand between commits", &BETWEEN),
    ("a pin keeps the rows of its place", &KEPT),
    ("a row waits for who is sealed below the pin", &WAITED),
    ("an excluded block is gathered too", &EXCLUDED),
];

// Pins the log's end, where it isn't pinned.
fn pin(world: &mut Plain<AnyRows>) -> Option<Stamp>
    requires stands { IsWorld any_law world.old }
    requires sessions { (plain_view world.old).opening.sessions ≡ 3 }
    ensures stands { IsWorld any_law world.new }
    ensures sessions { (plain_view world.new).opening.sessions ≡ 3 }
{
    match world.pinned() {
        Some(_) => None,
        None => Some(LogWorld::pin(world)),
    }
}

// Ends the pin, where there is one: its place.
fn unpin(world: &mut Plain<AnyRows>) -> Option<Stamp>
    requires stands { IsWorld any_law world.old }
    requires sessions { (plain_view world.old).opening.sessions ≡ 3 }
    ensures stands { IsWorld any_law world.new }
    ensures sessions { (plain_view world.new).opening.sessions ≡ 3 }
{
    let place = world.pinned()?;
    LogWorld::unpin(world);
    Some(place)
}

// The first word of an object's row as of the pin, or who is waited for, where there is a pin.
fn first(world: &mut Plain<AnyRows>, oid: Oid) -> Option<Result<u64, SeatWait>>
    requires stands { IsWorld any_law world.old }
    requires sessions { (plain_view world.old).opening.sessions ≡ 3 }
    ensures stands { IsWorld any_law world.new }
    ensures sessions { (plain_view world.new).opening.sessions ≡ 3 }
{
    if oid >= OID_LIMIT || world.pinned().is_none() {
        return None;
    }
    match LogWorld::row_at(world, oid) {
        Ok(row) => Some(Ok(row[0])),
        Err(wait) => Some(Err(wait)),
    }
}

// Whether a step is answered so.
fn does(world: &mut Plain<AnyRows>, words: &mut [u64], step: Pinned) -> bool
    requires stands { IsWorld any_law world.old }
    requires sessions { (plain_view world.old).opening.sessions ≡ 3 }
    requires room { length words.old ≡ RING_WORDS }
    ensures stands { IsWorld any_law world.new }
    ensures sessions { (plain_view world.new).opening.sessions ≡ 3 }
    ensures room { length words.new ≡ RING_WORDS }
{
    match step {
        Pinned::Turns(turns) => is_answered(world, turns),
        Pinned::Flush(want) => flush(world, words) == want,
        Pinned::Pin(want) => pin(world) == want,
        Pinned::Unpin(want) => unpin(world) == want,
        Pinned::First(oid, want) => first(world, oid) == want,
    }
}

// Takes steps up to one that is answered otherwise: its place.
fn first_other(world: &mut Plain<AnyRows>, words: &mut [u64], steps: &[Pinned]) -> Option<usize>
    requires stands { IsWorld any_law world.old }
    requires sessions { (plain_view world.old).opening.sessions ≡ 3 }
    requires room { length words.old ≡ RING_WORDS }
{
    for place in 0..steps.len() {
        if !does(world, words, steps[place]) {
            return Some(place);
        }
    }
    None
}

// The same of a world of its own.
fn first_of(alloc: Global, steps: &[Pinned]) -> Result<Option<usize>, AllocError> {
    let mut world = in_lists(alloc, false)?;
    let mut words = Vec::from_elem(alloc, 0, RING_WORDS as usize)?;
    Ok(first_other(&mut world, &mut words, steps))
}

#[test]
fn flush_turns_and_pins_are_answered(rt: HostRuntime) -> Result<(), AllocError> {
    for (name, steps) in CASES {
        assert_eq!(rt; first_of(rt.alloc(), steps)?, None, "{name}");
    }
    Ok(())
}
