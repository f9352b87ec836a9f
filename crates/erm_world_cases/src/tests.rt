//! Two sessions over one table of the world in lists.
ghost use Rattle.std.specs.Prelude.{◌≡◌, ◌≤◌, IfOk, [], replicate};
ghost use Rattle.erm_model.specs.declared.TheConstants.{ROW_WORDS};
ghost use Rattle.erm_model.specs.declared.limits.TheConstants.{OID_LIMIT, TABLES};
ghost use Rattle.erm_model.specs.RowTransaction.{SameLaw};
ghost use Rattle.erm_node.specs.Sound.{sound_law};
ghost use Rattle.erm_plain.specs.Stands.{IsWorld, plain_view};
ghost use Rattle.erm_world_cases.specs.Sessions.{AllRun};

mod lines;
mod saves;
mod tree;

use crate::sessions;
use erm_model::{
    OID_LIMIT, Oid, Op, Outcome, Phase, ROW_WORDS, Reply, Row, RowStop, Seat, Stamp, Value,
};
use erm_node::{SoundRows, sound, zero_rows_are_not_reached};
use erm_plain::Plain;
use erm_world::RowWorld;
use std::alloc::{AllocError, Global};
use std::process::Abort;

// As many rows of zeros as there may be objects.
fn zero_rows(alloc: Global) -> Result<Vec<Row>, AllocError>
    ensures { IfOk result (λ rows. rows.items ≡ replicate OID_LIMIT (replicate ROW_WORDS 0)) }
{
    let mut rows = Vec::new(alloc);
    for _oid in 0..OID_LIMIT {
        rows.push([0; ROW_WORDS])?;
    }
    Ok(rows)
}

// Two sessions on rows of zeros, by which every table is empty. Objects are made from `first` on.
fn world(rt: &impl Abort, alloc: Global, first: Oid) -> Result<Plain<SoundRows>, AllocError>
    requires low { TABLES ≤ first }
    requires high { first ≤ OID_LIMIT }
    ensures world { IfOk result (λ p. IsWorld sound_law p) }
    ensures runs { IfOk result (λ p. AllRun (plain_view p)) }
    ensures sessions { IfOk result (λ p. (plain_view p).opening.sessions ≡ 2) }
    ensures uncommitted { IfOk result (λ p. ((plain_view p).session 1).over ≡ []) }
{
    let rows = zero_rows(alloc)?;
    assert!(rt; sound(&rows), "rows of zeros are sound");
    zero_rows_are_not_reached();
    Plain::open(alloc, &rows, 13, 1, u64::from(first), 2)
}

// Begins, where the session is idle.
fn begin<W: RowWorld>(world: &mut W, seat: Seat) -> Option<Stamp>
    requires stands { W.stands world.old }
    requires runs { AllRun (W.view world.old) }
    requires sessions { (W.view world.old).opening.sessions ≡ 2 }
    ensures stands { W.stands world.new }
    ensures runs { AllRun (W.view world.new) }
    ensures sessions { (W.view world.new).opening.sessions ≡ 2 }
{
    if seat == 0 || seat > 2 {
        return None;
    }
    match world.phase(seat) {
        Phase::Idle => sessions::begin(world, seat).ok(),
        _ => None,
    }
}

// The answer to an operation, where the session is active.
fn ask<W: RowWorld>(world: &mut W, seat: Seat, op: &Op) -> Option<Result<Reply, RowStop>>
    requires law { SameLaw W.law sound_law }
    requires stands { W.stands world.old }
    requires runs { AllRun (W.view world.old) }
    requires sessions { (W.view world.old).opening.sessions ≡ 2 }
    ensures stands { W.stands world.new }
    ensures runs { AllRun (W.view world.new) }
    ensures sessions { (W.view world.new).opening.sessions ≡ 2 }
{
    if seat == 0 || seat > 2 {
        return None;
    }
    match world.phase(seat) {
        Phase::Active => Some(sessions::answer(world, seat, op)),
        _ => None,
    }
}

// Seals, where the session is active.
fn seal<W: RowWorld>(world: &mut W, seat: Seat) -> Option<Stamp>
    requires law { SameLaw W.law sound_law }
    requires stands { W.stands world.old }
    requires runs { AllRun (W.view world.old) }
    requires sessions { (W.view world.old).opening.sessions ≡ 2 }
    ensures stands { W.stands world.new }
    ensures runs { AllRun (W.view world.new) }
    ensures sessions { (W.view world.new).opening.sessions ≡ 2 }
{
    if seat == 0 || seat > 2 {
        return None;
    }
    match world.phase(seat) {
        Phase::Active => Some(sessions::seal(world, seat)),
        _ => None,
    }
}

// Settles, where the session is sealed.
fn settle<W: RowWorld>(world: &mut W, seat: Seat) -> Option<Outcome>
    requires stands { W.stands world.old }
    requires runs { AllRun (W.view world.old) }
    requires sessions { (W.view world.old).opening.sessions ≡ 2 }
    ensures stands { W.stands world.new }
    ensures runs { AllRun (W.view world.new) }
    ensures sessions { (W.view world.new).opening.sessions ≡ 2 }
{
    if seat == 0 || seat > 2 {
        return None;
    }
    match world.phase(seat) {
        Phase::Sealed => sessions::settle(world, seat).ok(),
        _ => None,
    }
}

// A value of one byte.
fn value(byte: u8) -> Value {
    Value::new(&[byte]).unwrap()
}

// What is asked: the key 10, or for one from 3 on.
#[derive(Clone, Copy)]
enum Asked {
    Get,
    Next,
    // It is to have this byte.
    Put(u8),
}

// What is answered.
#[derive(Clone, Copy)]
enum Told {
    Done,
    // The key's byte, or that of the key that is found.
    Value(u8),
    Pair(u8),
    Stopped(RowStop),
    // Nothing, since the session isn't active.
    Nothing,
}

// A step of a session, with what comes of it.
#[derive(Clone, Copy)]
enum Step {
    // It begins at this stamp.
    Begin(Stamp),
    Ask(Asked, Told),
    // It seals at this stamp.
    Seal(Stamp),
    // It settles, and commits.
    Commits,
}

fn op(asked: Asked) -> Op {
    match asked {
        Asked::Get => Op::Get { table: 0, key: 10 },
        Asked::Next => Op::Next { table: 0, from: 3 },
        Asked::Put(byte) => Op::Put {
            table: 0,
            key: 10,
            value: value(byte),
        },
    }
}

fn answer(told: Told) -> Option<Result<Reply, RowStop>> {
    match told {
        Told::Done => Some(Ok(Reply::Done)),
        Told::Value(byte) => Some(Ok(Reply::Value(Some(value(byte))))),
        Told::Pair(byte) => Some(Ok(Reply::Pair(Some((10, value(byte)))))),
        Told::Stopped(stop) => Some(Err(stop)),
        Told::Nothing => None,
    }
}

// Whether this comes of a step.
fn goes_so<W: RowWorld>(world: &mut W, seat: Seat, step: Step) -> bool
    requires law { SameLaw W.law sound_law }
    requires stands { W.stands world.old }
    requires runs { AllRun (W.view world.old) }
    requires sessions { (W.view world.old).opening.sessions ≡ 2 }
    ensures stands { W.stands world.new }
    ensures runs { AllRun (W.view world.new) }
    ensures sessions { (W.view world.new).opening.sessions ≡ 2 }
{
    match step {
        Step::Begin(stamp) => begin(world, seat) == Some(stamp),
        Step::Ask(asked, told) => ask(world, seat, &op(asked)) == answer(told),
        Step::Seal(stamp) => seal(world, seat) == Some(stamp),
        Step::Commits => matches!(settle(world, seat), Some(Outcome::Committed(_))),
    }
}

// The place of the first step of which something else comes.
fn first_other<W: RowWorld>(world: &mut W, steps: &[(Seat, Step)]) -> Option<usize>
    requires law { SameLaw W.law sound_law }
    requires stands { W.stands world.old }
    requires runs { AllRun (W.view world.old) }
    requires sessions { (W.view world.old).opening.sessions ≡ 2 }
{
    for place in 0..steps.len() {
        let (seat, step) = steps[place];
        if !goes_so(world, seat, step) {
            return Some(place);
        }
    }
    None
}

const ONE_KEY: [(Seat, Step); 11] = [
    (1, Step::Begin(13)),
    (2, Step::Begin(13)),
    (1, Step::Ask(Asked::Put(7), Told::Done)),
    (
        2,
        Step::Ask(
            Asked::Put(8),
            Told::Stopped(RowStop::Owned { seat: 1, number: 1 }),
        ),
    ),
    // It was aborted.
    (2, Step::Ask(Asked::Get, Told::Nothing)),
    // The own value.
    (1, Step::Ask(Asked::Get, Told::Value(7))),
    (1, Step::Seal(13)),
    (1, Step::Commits),
    // Behind a block of 20 words, 11 of which are the leaf's and 4 the record's.
    (2, Step::Begin(33)),
    // The value committed.
    (2, Step::Ask(Asked::Get, Told::Value(7))),
    (2, Step::Ask(Asked::Next, Told::Pair(7))),
];

// The second session can't put the key that the first one has put, and is idle. It sees the value once it is committed.
#[test]
fn one_key_of_two_sessions(rt: HostRuntime) -> Result<(), AllocError> {
    let mut world = world(&rt, rt.alloc(), 16)?;
    assert_eq!(rt; first_other(&mut world, &ONE_KEY), None);
    Ok(())
}
