//! Tests of the contract, over a world of one session.
ghost use Rattle.std.specs.Prelude.{◌≡◌, ◌<◌, IfOk};
ghost use Rattle.erm_model.specs.declared.limits.TheConstants.{OID_LIMIT};

use erm_map_world::MapWorld;
use erm_model::{
    AnyRows, OID_LIMIT, Oid, Outcome, Phase, READ_LIMIT, ROW_WORDS, Receipt, Row, RowRead, RowStop,
    RowTxn, STOP, Stamp,
};
use erm_world::{RowWorld, WorldTxn};
use std::alloc::{AllocError, Global};

// Where a world's log begins, if not at its end.
const START: Stamp = 100;

// A world without a law on rows of zeros, but for one, whose log begins here.
fn world(alloc: Global, start: Stamp) -> Result<MapWorld<AnyRows>, AllocError>
    requires { 0 < start }
    ensures { IfOk result (λ world. ⟦<MapWorld<AnyRows> as RowWorld>⟧.stands world) }
{
    let mut rows = Vec::from_elem(alloc, [0; ROW_WORDS], OID_LIMIT as usize)?;
    rows[1] = [7; ROW_WORDS];
    Ok(MapWorld::new(alloc, rows, 16, start))
}

// Begins, where the session is idle.
fn begin(world: &mut MapWorld<AnyRows>) -> Option<Stamp>
    requires { ⟦<MapWorld<AnyRows> as RowWorld>⟧.stands world.old }
    ensures { ⟦<MapWorld<AnyRows> as RowWorld>⟧.stands world.new }
{
    match world.phase(1) {
        Phase::Idle => world.begin(1).ok(),
        _ => None,
    }
}

// Seals and settles, where the session is active.
fn commit(world: &mut MapWorld<AnyRows>) -> Option<Outcome>
    requires { ⟦<MapWorld<AnyRows> as RowWorld>⟧.stands world.old }
    ensures { ⟦<MapWorld<AnyRows> as RowWorld>⟧.stands world.new }
{
    match world.phase(1) {
        Phase::Active => {}
        _ => return None,
    }
    world.seal(1);
    match world.phase(1) {
        Phase::Sealed => world.settle(1).ok(),
        _ => None,
    }
}

// Aborts, where the session is active.
fn abort(world: &mut MapWorld<AnyRows>) -> bool
    requires { ⟦<MapWorld<AnyRows> as RowWorld>⟧.stands world.old }
    ensures { ⟦<MapWorld<AnyRows> as RowWorld>⟧.stands world.new }
{
    match world.phase(1) {
        Phase::Active => {}
        _ => return false,
    }
    world.abort(1);
    true
}

// The row of an object, where the session is active.
fn row(world: &mut MapWorld<AnyRows>, oid: Oid) -> Option<Row>
    requires stands { ⟦<MapWorld<AnyRows> as RowWorld>⟧.stands world.old }
    requires oid { oid < OID_LIMIT }
    ensures { ⟦<MapWorld<AnyRows> as RowWorld>⟧.stands world.new }
{
    match world.phase(1) {
        Phase::Active => world.read(1, oid).ok(),
        _ => None,
    }
}

// A new object, where the session is active.
fn fresh(world: &mut MapWorld<AnyRows>) -> Option<Oid>
    requires { ⟦<MapWorld<AnyRows> as RowWorld>⟧.stands world.old }
    ensures { ⟦<MapWorld<AnyRows> as RowWorld>⟧.stands world.new }
{
    match world.phase(1) {
        Phase::Active => world.fresh(1).ok(),
        _ => None,
    }
}

// Copies a row from one object to another, in the session's transaction.
fn copy_by(txn: &mut WorldTxn<'_, MapWorld<AnyRows>>, from: Oid, to: Oid) -> Result<(), RowStop>
    requires active { ⟦<WorldTxn<'static, MapWorld<AnyRows>> as RowRead>⟧.face.active txn.old }
    requires from { from < OID_LIMIT }
    requires to { to < OID_LIMIT }
    ensures same { txn.new.world.ghost_name ≡ txn.old.world.ghost_name }
    ensures stands { ⟦<MapWorld<AnyRows> as RowWorld>⟧.stands txn.new.world.now }
{
    let row = txn.read(from)?;
    txn.write(to, &row)
}

// The same where the session is active.
fn copy(world: &mut MapWorld<AnyRows>, from: Oid, to: Oid) -> bool
    requires stands { ⟦<MapWorld<AnyRows> as RowWorld>⟧.stands world.old }
    requires from { from < OID_LIMIT }
    requires to { to < OID_LIMIT }
    ensures { ⟦<MapWorld<AnyRows> as RowWorld>⟧.stands world.new }
{
    match world.phase(1) {
        Phase::Active => {}
        _ => return false,
    }
    let mut txn = WorldTxn { world, seat: 1 };
    copy_by(&mut txn, from, to).is_ok()
}

// The first object that isn't read any more, and why, where the session is active.
fn first_unread(world: &mut MapWorld<AnyRows>) -> Option<(Oid, RowStop)>
    requires { ⟦<MapWorld<AnyRows> as RowWorld>⟧.stands world.old }
    ensures { ⟦<MapWorld<AnyRows> as RowWorld>⟧.stands world.new }
{
    for oid in 0..READ_LIMIT as Oid + 1 {
        match world.phase(1) {
            Phase::Active => {}
            _ => return None,
        }
        if let Err(why) = world.read(1, oid) {
            return Some((oid, why));
        }
    }
    None
}

// A whole transaction that copies a row, where the session is idle.
fn copied(world: &mut MapWorld<AnyRows>, from: Oid, to: Oid) -> Option<Outcome>
    requires stands { ⟦<MapWorld<AnyRows> as RowWorld>⟧.stands world.old }
    requires from { from < OID_LIMIT }
    requires to { to < OID_LIMIT }
    ensures { ⟦<MapWorld<AnyRows> as RowWorld>⟧.stands world.new }
{
    begin(world)?;
    if copy(world, from, to) {
        commit(world)
    } else {
        None
    }
}

// The number of a transaction, its commit stamp and its predecessor stamp.
type Stamps = (u32, Stamp, Stamp);

// What a transaction that wrote one row of sevens is told, which has these stamps.
fn receipt_of(stamps: Stamps) -> Receipt {
    let (number, stamp, pred) = stamps;
    Receipt {
        number,
        stamp,
        end: stamp.saturating_add(22),
        succ: stamp,
        pred,
    }
}

// Whether this is the outcome of such a transaction.
fn is_told(outcome: Option<Outcome>, stamps: Stamps) -> bool {
    outcome == Some(Outcome::Committed(receipt_of(stamps)))
}

// A step of the session, with what comes of it.
#[derive(Clone, Copy)]
enum Step {
    // It begins at this stamp, or it doesn't.
    Begin(Option<Stamp>),
    // Each word of an object's row is this one.
    Row(Oid, u64),
    // It makes this object.
    Fresh(Oid),
    // A row is copied from one object to another, or it isn't.
    Copy(Oid, Oid, bool),
    // The first object that isn't read any more, and why.
    Unread(Option<(Oid, RowStop)>),
    // It commits, whatever it is told.
    Commits,
    // It commits, and is told this.
    Commit(Stamps),
    // A whole transaction that copies a row from one object to another is told this.
    Copied(Oid, Oid, Stamps),
    // The commit that was told this isn't synced.
    Unsynced(Stamps),
    // It is aborted, or it isn't.
    Abort(bool),
}

// Whether this comes of a step of a transaction in progress.
fn works_so(world: &mut MapWorld<AnyRows>, step: Step) -> bool
    requires { ⟦<MapWorld<AnyRows> as RowWorld>⟧.stands world.old }
    ensures { ⟦<MapWorld<AnyRows> as RowWorld>⟧.stands world.new }
{
    match step {
        Step::Row(oid, word) if oid < OID_LIMIT => row(world, oid) == Some([word; ROW_WORDS]),
        Step::Fresh(oid) => fresh(world) == Some(oid),
        Step::Copy(from, to, is_copied) if from < OID_LIMIT && to < OID_LIMIT => {
            copy(world, from, to) == is_copied
        }
        Step::Unread(found) => first_unread(world) == found,
        _ => false,
    }
}

// Whether this comes of a step.
fn goes_so(world: &mut MapWorld<AnyRows>, step: Step) -> bool
    requires { ⟦<MapWorld<AnyRows> as RowWorld>⟧.stands world.old }
    ensures { ⟦<MapWorld<AnyRows> as RowWorld>⟧.stands world.new }
{
    match step {
        Step::Begin(stamp) => begin(world) == stamp,
        Step::Commits => commit(world).is_some(),
        Step::Commit(stamps) => is_told(commit(world), stamps),
        Step::Copied(from, to, stamps) if from < OID_LIMIT && to < OID_LIMIT => {
            is_told(copied(world, from, to), stamps)
        }
        Step::Unsynced(stamps) => world.durable(1, &receipt_of(stamps)).is_err(),
        Step::Abort(is_aborted) => abort(world) == is_aborted,
        _ => works_so(world, step),
    }
}

// The place of the first step of which something else comes.
fn first_other(world: &mut MapWorld<AnyRows>, steps: &[Step]) -> Option<usize>
    requires { ⟦<MapWorld<AnyRows> as RowWorld>⟧.stands world.old }
    ensures { ⟦<MapWorld<AnyRows> as RowWorld>⟧.stands world.new }
{
    for place in 0..steps.len() {
        if !goes_so(world, steps[place]) {
            return Some(place);
        }
    }
    None
}

// The same in a new world, whose log begins here.
fn first_other_from(
    alloc: Global,
    start: Stamp,
    steps: &[Step],
) -> Result<Option<usize>, AllocError>
    requires { 0 < start }
{
    let mut world = world(alloc, start)?;
    Ok(first_other(&mut world, steps))
}

const COPIES: [Step; 6] = [
    // It saw the rows of the opening alone.
    Step::Copied(1, 2, (1, 100, 0)),
    // It read a row of the first.
    Step::Copied(2, 3, (2, 122, 100)),
    // It overwrote a row of the first that the second has read.
    Step::Copied(1, 2, (3, 144, 122)),
    // Behind the third's block.
    Step::Begin(Some(166)),
    // The second's row, and the opening's.
    Step::Row(3, 7),
    Step::Row(4, 0),
];

#[test]
fn each_transaction_reads_what_the_earlier_ones_committed(
    rt: HostRuntime,
) -> Result<(), AllocError> {
    assert_eq!(rt; first_other_from(rt.alloc(), START, &COPIES)?, None);
    Ok(())
}

const LAST: [Step; 5] = [
    // No transaction has begun.
    Step::Copy(1, 2, false),
    // The log is empty.
    Step::Begin(Some(STOP - 1)),
    // One is in progress.
    Step::Begin(None),
    Step::Commits,
    // The log is at its end.
    Step::Begin(None),
];

#[test]
fn the_log_ends(rt: HostRuntime) -> Result<(), AllocError> {
    assert_eq!(rt; first_other_from(rt.alloc(), STOP - 1, &LAST)?, None);
    Ok(())
}

const ABORTED: [Step; 8] = [
    Step::Begin(Some(START)),
    // The opening's row.
    Step::Row(2, 0),
    Step::Copy(1, 2, true),
    // The own row.
    Step::Row(2, 7),
    // Once.
    Step::Abort(true),
    Step::Abort(false),
    // The log is empty still.
    Step::Begin(Some(START)),
    // The opening's row again.
    Step::Row(2, 0),
];

#[test]
fn aborted_rows_are_gone(rt: HostRuntime) -> Result<(), AllocError> {
    assert_eq!(rt; first_other_from(rt.alloc(), START, &ABORTED)?, None);
    Ok(())
}

const NUMBERED: [Step; 8] = [
    Step::Begin(Some(START)),
    // The first object.
    Step::Fresh(16),
    Step::Abort(true),
    Step::Begin(Some(START)),
    // No object is made twice.
    Step::Fresh(17),
    Step::Copy(1, 17, true),
    // A block of one row.
    Step::Commit((2, START, 0)),
    Step::Unsynced((2, START, 0)),
];

#[test]
fn numbers_and_objects_go_on(rt: HostRuntime) -> Result<(), AllocError> {
    assert_eq!(rt; first_other_from(rt.alloc(), START, &NUMBERED)?, None);
    Ok(())
}

const FULL: [Step; 5] = [
    // No transaction has begun.
    Step::Unread(None),
    Step::Begin(Some(START)),
    // One more than may be read.
    Step::Unread(Some((READ_LIMIT as Oid, RowStop::ReadsFull))),
    // One of those read.
    Step::Row(1, 7),
    // An object that isn't read is claimed.
    Step::Copy(1, 600, true),
];

#[test]
fn reads_have_a_limit(rt: HostRuntime) -> Result<(), AllocError> {
    assert_eq!(rt; first_other_from(rt.alloc(), START, &FULL)?, None);
    Ok(())
}
